// Conditions such as 3&!14|(2&5): read once a call into postfix code, judged by their brackets and names, and evaluated at each state.
#![tactic(auto)]

ghost use Rattle.std.specs.Prelude.{◌≡◌, ◌+◌, ◌%◌, ◌^◌, ◌≤◌, ◌<◌, length};
ghost use Rattle.condition.specs.Causes.{max_condition};
ghost use Rattle.condition.specs.Code.{push, kept, code_holds, StackFits, opened, deepest, code_below, codes_below};
ghost use Rattle.condition.specs.Outcome.{DigitOf, NameRead, Compiles, Prepares};

use base::ArrayVec;
use book::Cause;

// The bytes of the longest condition; it has no more codes than bytes.
pub const MAX_CONDITION: usize = 255;

const MAX_DIGITS: usize = 4;

// How deep brackets may be nested.
const MAX_DEPTH: usize = 16;

// How many brackets can be shut within the longest condition: two bytes each, and one for a name.
const MAX_SHUT: usize = 127;

// A fact's name pushes whether it stands; an operator takes its operands off the stack and pushes its value.
#[derive(Clone, Copy, PartialEq, Eq, Debug)]
pub enum Code {
    Not,
    And,
    Or,
    Name(u16),
}

impl Code {
    // Whether it is an operator or a fact below n.
    fn is_below(self, n: usize) -> bool
        ensures { result ≡ code_below n self }
    {
        match self {
            Code::Name(f) => usize::from(f) < n,
            _ => true,
        }
    }
}

// A condition's postfix code.
pub type Postfix = ArrayVec<Code, MAX_CONDITION>;

// A digit's value.
// Kept: `char::to_digit` answers a u32, which would be cut down to a fact's u16, and is no plainer.
fn digit_of(c: u8) -> Option<u16>
    ensures { DigitOf c result }
{
    c.is_ascii_digit().then(|| u16::from(c - b'0'))
}

// A name of one to four digits: how many, and the fact.
// Kept: `take_while` would count the digits in one walk and read their number in a second, so it is no plainer than the one walk here.
#[tactic(auto, using(crate::proofs::NameLaws::no_digits, crate::proofs::NameLaws::small_so_far, crate::proofs::NameLaws::next_digit, crate::proofs::NameLaws::fifth_digit))]
fn read_name(text: &[u8]) -> Option<(usize, u16)>
    ensures { NameRead text.now result }
{
    let mut digits = 0;
    let mut fact = 0;
    for c in text {
        let Some(d) = digit_of(*c) else {
            break;
        };
        if digits == MAX_DIGITS {
            return None;
        }
        fact = fact * 10 + d;
        digits += 1;
    }
    (0 < digits).then_some((digits, fact))
}

// What is left of a condition's text, and the code of what was read: each byte that is left has room for a code.
#[derive(Drop)]
struct Reader<'a> {
    rest: &'a [u8],
    code: Postfix,
    ghost room: { length code + length rest.now ≤ max_condition },
}

impl Reader<'_> {
    ghost use Rattle.grammar.specs.Reader.{from, bracket, disjunction, conjunction, nothing};
    ghost use Rattle.condition.specs.Readers.{Passes, Outcome};

    // Goes past a byte if it is the next.
    fn passes(&mut self, byte: u8) -> bool
        ensures { Passes byte self.old self.new result }
    {
        if self.rest.first() == Some(&byte) {
            self.rest = &self.rest[1..];
            return true;
        }
        false
    }

    // Operands of `|`, from the left.
    // Kept: a rule of the project: document 01 names a function for each level, so this one and the next stay two.
    #[cycle(or_and_bracket)]
    #[tactic(auto, using(crate::proofs::ReaderLaws::first_operand, crate::proofs::ReaderLaws::next_operand))]
    fn or_level(&mut self) -> Option<()>
        ensures { Outcome (from disjunction nothing) self.old self.new result }
    {
        self.and_level()?;
        while self.passes(b'|') {
            self.and_level()?;
            self.code.push(Code::Or);
        }
        Some(())
    }

    // Operands of `&`, from the left.
    #[cycle(or_and_bracket)]
    #[tactic(auto, using(crate::proofs::ReaderLaws::first_operand, crate::proofs::ReaderLaws::next_operand))]
    fn and_level(&mut self) -> Option<()>
        ensures { Outcome (from conjunction nothing) self.old self.new result }
    {
        self.bracket_level()?;
        while self.passes(b'&') {
            self.bracket_level()?;
            self.code.push(Code::And);
        }
        Some(())
    }

    // An operand of `&`: a name, a bracket, or either behind `!`.
    #[cycle(or_and_bracket)]
    #[tactic(auto, using(crate::proofs::ReaderLaws::negated_read, crate::proofs::ReaderLaws::name_read, crate::proofs::ReaderLaws::read_from))]
    fn bracket_level(&mut self) -> Option<()>
        ensures { Outcome bracket self.old self.new result }
    {
        if self.passes(b'!') {
            self.bracket_level()?;
            self.code.push(Code::Not);
            return Some(());
        }
        if self.passes(b'(') {
            self.or_level()?;
            return self.passes(b')').then_some(());
        }
        let (digits, fact) = read_name(self.rest)?;
        self.rest = &self.rest[digits..];
        self.code.push(Code::Name(fact));
        Some(())
    }
}

// How many brackets are open behind a byte.
fn open_behind(unshut: usize, c: u8) -> usize
    requires { unshut + 1 < 2 ^ 64 }
    ensures { result ≡ opened unshut c }
{
    match c {
        b'(' => unshut + 1,
        b')' => unshut.saturating_sub(1),
        _ => unshut,
    }
}

// The most brackets that are open at once.
fn bracket_depth(text: &[u8]) -> usize
    ensures { result ≡ deepest 0 0 text.now }
{
    let mut unshut = 0;
    let mut most = 0;
    for c in text {
        unshut = open_behind(unshut, *c);
        most = most.max(unshut);
    }
    most
}

// A condition's postfix code, or none where the text is empty, over 255 bytes long or outside the grammar. Where more brackets stand open
// at once than can be shut, nothing is read: this bounds the stack.
#[tactic(auto, using(crate::proofs::CompileLaws::long_text, crate::proofs::CompileLaws::deep_text, crate::proofs::CompileLaws::no_text, crate::proofs::CompileLaws::whole_or_none))]
fn compile(text: &[u8]) -> Option<Postfix>
    ensures { Compiles text.now result }
{
    if MAX_CONDITION < text.len() || MAX_SHUT < bracket_depth(text) {
        return None;
    }
    let mut reader = Reader {
        rest: text,
        code: Postfix::new(Code::Not),
    };
    reader.or_level()?;
    let Reader { rest, code } = reader;
    rest.is_empty().then_some(code)
}

// Whether every fact that the code names is below n.
fn names_below(codes: &[Code], n: usize) -> bool
    ensures { result ≡ codes_below n codes.now }
{
    codes.iter().all(|code| code.is_below(n))
}

// Reads a condition over n facts, or says the first of causes 16, 17 and 11 that applies.
#[tactic(auto, using(crate::proofs::CauseLaws::bad_condition, crate::proofs::CauseLaws::too_deep, crate::proofs::CauseLaws::unknown_name, crate::proofs::CauseLaws::none_applies))]
pub fn read_condition(text: &[u8], n: usize) -> Result<Postfix, Cause>
    ensures { Prepares text.now n result }
{
    let code = compile(text).ok_or(Cause::BadCondition)?;
    if MAX_DEPTH < bracket_depth(text) {
        return Err(Cause::TooDeep);
    }
    if names_below(code.as_slice(), n) {
        Ok(code)
    } else {
        Err(Cause::NoSuchFact)
    }
}

// Pushes a bit on a stack of bits, the top in the lowest. The 64 bits on top are kept, and no condition needs more: 16 brackets deep, its
// stack has at most 36.
// Kept: bits in one number, since a list of them would hand out each operand as an Option, and is no plainer.
#[tactic(auto, using(crate::proofs::RunLaws::pushed))]
fn push(stack: u64, bit: bool) -> u64
    ensures { result ≡ push stack bit % 2 ^ 64 }
{
    (stack << 1) + u64::from(bit)
}

// Runs one code on the stack.
#[tactic(auto, unfolding(models::specs::StableModels::atom_holds))]
fn run_code(code: Code, state: &[bool], stack: u64) -> u64
    ensures { result ≡ kept state.now stack code }
{
    let top = stack % 2 == 1;
    let second = stack / 2 % 2 == 1;
    match code {
        Code::Not => push(stack / 2, !top),
        Code::And => push(stack / 4, second && top),
        Code::Or => push(stack / 4, second || top),
        Code::Name(f) => push(stack, state.get(usize::from(f)).copied().unwrap_or(false)),
    }
}

// The value of a condition in a state, by its code.
pub fn evaluate(codes: &[Code], state: &[bool]) -> bool
    requires { StackFits codes.now }
    ensures { result ≡ code_holds codes.now state.now }
{
    let stack = codes
        .iter()
        .fold(0, |stack, code| run_code(*code, state, stack));
    stack % 2 == 1
}
