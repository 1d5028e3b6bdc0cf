//! The forms of lexemes as finite automata, and the longest front of a form.
ghost use Rattle.std.specs.Prelude.{◌≡◌, [], ◌∷◌, MatchOption};
ghost use Rattle.uc_layout.specs.Lexeme as spec;
ghost use Rattle.uc_layout.specs.Lexeme.{IsLongest};

use uc_base::{is_digit, is_letter, is_operator, is_wordy};

/// The forms of lexemes. A whole lexeme is judged afterwards, since not each is a token.
#[derive(Clone, Copy, Debug, PartialEq, Eq)]
pub enum Form {
    /// Segments of one sort of characters, with dots between.
    Dotted,
    /// Digits, with a sign before them or a letter or a fraction behind.
    Number,
    /// A text in quotes.
    Text,
    /// A question mark and a character.
    Character,
    /// A hash, with the number of a member or a constructor behind.
    Hash,
    /// Two hash signs and a dotted lexeme.
    Builtin,
    /// A bracket, a comma, a dot or an at sign.
    Single,
}

/// Where a lexeme stands after some of its bytes.
#[derive(Clone, Copy, Debug, PartialEq, Eq)]
pub enum State {
    SegmentStart,
    Wordy,
    Operators,
    NumberStart,
    Sign,
    Digits,
    Letter,
    Point,
    Fraction,
    TextStart,
    TextInside,
    TextEscape,
    TextEnd,
    CharStart,
    CharMark,
    CharEscape,
    CharBytes,
    CharEnd,
    HashStart,
    /// How many digits of the hash there are.
    HashDigits(u32),
    MemberStart,
    MemberZero,
    /// How many digits of the member's number there are.
    MemberDigits(u32),
    CtorStart,
    CtorZero,
    /// How many digits of the constructor's number there are.
    CtorDigits(u32),
    BuiltinStart,
    BuiltinMark,
    BuiltinName,
    SingleStart,
    SingleEnd,
}

/// A hexadecimal digit in lower case.
fn is_lower_digit(c: u8) -> bool
    ensures { result ≡ spec.is_lower_digit c }
{
    matches!(c, b'0'..=b'9' | b'a'..=b'f')
}

/// What may follow a backslash in a literal.
fn is_escape(c: u8) -> bool
    ensures { result ≡ spec.is_escape c }
{
    matches!(c, b'n' | b't' | b'r' | b'0' | b's' | b'\\' | b'"')
}

/// A byte of a character behind its first.
pub fn is_continuation(c: u8) -> bool
    ensures { result ≡ spec.is_continuation c }
{
    128 <= c && c < 192
}

/// A symbol of one character that is no operator.
pub fn is_single(c: u8) -> bool
    ensures { result ≡ spec.is_single c }
{
    matches!(c, b'(' | b')' | b'[' | b']' | b',' | b'.' | b'@')
}

fn only(test: bool, state: State) -> Option<State>
    ensures { result ≡ spec.only test state }
{
    if test { Some(state) } else { None }
}

fn segment_step(c: u8) -> Option<State>
    ensures { result ≡ spec.segment_step c }
{
    if is_operator(c) {
        Some(State::Operators)
    } else {
        only(is_wordy(c), State::Wordy)
    }
}

fn digits_step(c: u8) -> Option<State>
    ensures { result ≡ spec.digits_step c }
{
    if is_digit(c) {
        Some(State::Digits)
    } else if is_letter(c) {
        Some(State::Letter)
    } else {
        only(c == b'.', State::Point)
    }
}

fn text_step(c: u8) -> Option<State>
    ensures { result ≡ spec.text_step c }
{
    match c {
        b'"' => Some(State::TextEnd),
        b'\\' => Some(State::TextEscape),
        _ => only(c != b'\n', State::TextInside),
    }
}

fn character_step(c: u8) -> Option<State>
    ensures { result ≡ spec.character_step c }
{
    match c {
        b'\\' => Some(State::CharEscape),
        _ => only(c != b'\n' && c != b'\r', State::CharBytes),
    }
}

fn hash_step(count: u32, c: u8) -> Option<State>
    ensures { result ≡ spec.hash_step count c }
{
    if count < 128 && is_lower_digit(c) {
        Some(State::HashDigits(count + 1))
    } else if count < 8 {
        None
    } else if c == b'.' {
        Some(State::MemberStart)
    } else {
        only(c == b'#', State::CtorStart)
    }
}

fn member_step(c: u8) -> Option<State>
    ensures { result ≡ spec.member_step c }
{
    if c == b'0' {
        Some(State::MemberZero)
    } else {
        only(is_digit(c), State::MemberDigits(1))
    }
}

fn member_digits_step(count: u32, c: u8) -> Option<State>
    ensures { result ≡ spec.member_digits_step count c }
{
    if count < 9 && is_digit(c) {
        Some(State::MemberDigits(count + 1))
    } else {
        only(c == b'#', State::CtorStart)
    }
}

fn ctor_step(c: u8) -> Option<State>
    ensures { result ≡ spec.ctor_step c }
{
    if c == b'0' {
        Some(State::CtorZero)
    } else {
        only(is_digit(c), State::CtorDigits(1))
    }
}

fn ctor_digits_step(count: u32, c: u8) -> Option<State>
    ensures { result ≡ spec.ctor_digits_step count c }
{
    if count < 9 && is_digit(c) {
        Some(State::CtorDigits(count + 1))
    } else {
        None
    }
}

/// The state behind one more byte; `None` where the byte doesn't belong to the lexeme.
pub fn step(state: State, c: u8) -> Option<State>
    ensures { result ≡ spec.step state c }
{
    match state {
        State::SegmentStart | State::BuiltinName => segment_step(c),
        State::Wordy if is_wordy(c) => Some(State::Wordy),
        State::Operators if is_operator(c) => Some(State::Operators),
        State::Wordy | State::Operators => only(c == b'.', State::SegmentStart),
        State::NumberStart if c == b'+' || c == b'-' => Some(State::Sign),
        State::NumberStart | State::Sign => only(is_digit(c), State::Digits),
        State::Digits => digits_step(c),
        State::Point => only(is_digit(c), State::Fraction),
        State::TextStart => only(c == b'"', State::TextInside),
        State::TextInside => text_step(c),
        State::TextEscape => only(is_escape(c), State::TextInside),
        State::CharStart => only(c == b'?', State::CharMark),
        State::CharMark => character_step(c),
        State::CharEscape => only(is_escape(c), State::CharEnd),
        State::CharBytes => only(is_continuation(c), State::CharBytes),
        State::HashStart => only(c == b'#', State::HashDigits(0)),
        State::HashDigits(count) => hash_step(count, c),
        State::MemberStart => member_step(c),
        State::MemberZero => only(c == b'#', State::CtorStart),
        State::MemberDigits(count) => member_digits_step(count, c),
        State::CtorStart => ctor_step(c),
        State::CtorDigits(count) => ctor_digits_step(count, c),
        State::BuiltinStart => only(c == b'#', State::BuiltinMark),
        State::BuiltinMark => only(c == b'#', State::BuiltinName),
        State::SingleStart => only(is_single(c), State::SingleEnd),
        State::Letter
        | State::Fraction
        | State::TextEnd
        | State::CharEnd
        | State::CtorZero
        | State::SingleEnd => None,
    }
}

/// Whether a lexeme may end here.
pub fn is_final(state: State) -> bool
    ensures { result ≡ spec.is_final state }
{
    match state {
        State::HashDigits(count) => 8 <= count,
        State::Wordy
        | State::Operators
        | State::Digits
        | State::Letter
        | State::Fraction
        | State::TextEnd
        | State::CharBytes
        | State::CharEnd
        | State::MemberZero
        | State::MemberDigits(_)
        | State::CtorZero
        | State::CtorDigits(_)
        | State::BuiltinName
        | State::SingleEnd => true,
        _ => false,
    }
}

/// The state before the first byte of a lexeme.
pub fn initial(form: Form) -> State
    ensures { result ≡ spec.initial form }
{
    match form {
        Form::Dotted => State::SegmentStart,
        Form::Number => State::NumberStart,
        Form::Text => State::TextStart,
        Form::Character => State::CharStart,
        Form::Hash => State::HashStart,
        Form::Builtin => State::BuiltinStart,
        Form::Single => State::SingleStart,
    }
}

pub fn front(bytes: &[u8]) -> Option<(u8, &[u8])>
    ensures { MatchOption result (bytes.now ≡ []) (λ x. bytes.now ≡ x.0 ∷ x.1.now) }
{
    match bytes {
        [] => None,
        [c, rest @ ..] => Some((*c, rest)),
    }
}

/// How long the longest lexeme of a form is that stands at the front; 0 where there is none.
pub fn longest(form: Form, bytes: &[u8]) -> usize
    ensures { IsLongest (spec.initial form) bytes.now result }
{
    let mut state = initial(form);
    let mut longest = 0;
    let mut count = 0;
    let mut rest = bytes;
    'bytes: loop {
        match front(rest) {
            None => return longest,
            Some((c, after)) => match step(state, c) {
                None => return longest,
                Some(next) => {
                    count += 1;
                    longest = if is_final(next) { count } else { longest };
                    state = next;
                    rest = after;
                }
            },
        }
    }
}
