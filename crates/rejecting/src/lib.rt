// Which rules are rejected at a setting, by masks over the branching facts. All facts of a body that can reject branch, so two masks say
// at which settings it holds: they are made once a call, and no body is read at a setting.
#![tactic(auto)]

ghost use Rattle.std.specs.Prelude.{◌≡◌, ◌↔◌, ◌<◌, IsTrue, replicate};
ghost use Rattle.base.specs.Bounds.{max_names};
ghost use Rattle.rejecting.specs.Rejecting.{MasksOf, Named, Fits, RejectsAt, Uncleared};

use base::MAX_NAMES;
use setting::BodyMasks;

// A row that can reject rules, as masks: the plain and the negated atoms of its body, the layers in which it overrides rules, and the
// name of the opposite of its head.
#[derive(Clone, Copy)]
pub struct RejectingMasks {
    pub plain: u32,
    pub negated: u32,
    pub layers: u32,
    pub name: u16,
}

impl RejectingMasks {
    // Whether the body holds at the setting of this mask.
    fn fits(&self, standing: u32) -> bool
        ensures { IsTrue result ↔ Fits self.now standing }
    {
        self.plain & standing == self.plain && self.negated & standing == 0
    }
}

// The masks of a row with this body, where it overrides rules in some layer: no other row can reject.
pub fn rejecting_masks(body: BodyMasks, name: usize, layers: u32) -> Option<RejectingMasks>
    requires { name < max_names }
    ensures { MasksOf body name layers result }
{
    if layers == 0 {
        return None;
    }
    Some(RejectingMasks {
        plain: body.plain,
        negated: body.negated,
        layers,
        name: name as u16,
    })
}

// Bit i at name h: rules of layer i with that head are rejected at the setting of this mask. The array is lent, all 0: there is a number
// for each name, and to make or copy it would be felt at every setting.
#[tactic(auto, using(crate::proofs::RejectingLaws::named_at))]
pub fn reject_at(rejecting: &[RejectingMasks], standing: u32, rejects: &mut [u32; MAX_NAMES])
    requires named { Named rejecting.now }
    requires rejects_value { rejects.old ≡ replicate max_names 0 }
    ensures { RejectsAt rejecting.now standing rejects.new }
{
    for row in rejecting {
        if row.fits(standing) {
            rejects[usize::from(row.name)] |= row.layers;
        }
    }
}

// Makes the masks 0 again at the rows' names, so that the next setting finds them all 0: nothing else was set.
#[tactic(auto, using(crate::proofs::RejectingLaws::named_at))]
pub fn clear_at(rejecting: &[RejectingMasks], rejects: &mut [u32; MAX_NAMES])
    requires named { Named rejecting.now }
    requires uncleared { Uncleared rejecting.now rejects.old }
    ensures { rejects.new ≡ replicate max_names 0 }
{
    for row in rejecting {
        rejects[usize::from(row.name)] = 0;
    }
}
