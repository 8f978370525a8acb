//! The words and the signs of operators.

ghost use Rattle.std.specs.Prelude.{◌≡◌, ◌≤◌, ◌<◌, length, drop, Ok, IfSome, IsTrue, if◌then◌else◌};
ghost use Rattle.sd_condition_parse.specs.Operator.{comparing_words, comparison, exists_words, is_word, member_words};
ghost use Rattle.sd_condition_parse.specs.Operator.{signs, worded};
ghost use Rattle.sd_condition_parse.specs.Outcome.{Names};
ghost use Rattle.sd_text.specs.Grammar.{named};
ghost use Rattle.sd_text.specs.Names.{rows};

use crate::run::{Class, run_len};
use sd_condition::Operator;
use sd_text::Cursor;

/// The words that precede an attribute ([MS-DTYP] 2.5.1.1, exists-op).
static EXISTS_WORDS: [(&str, Operator); 2] = [
    ("Exists", Operator::Exists),
    ("Not_Exists", Operator::NotExists),
];

/// The words that precede SIDs ([MS-DTYP] 2.5.1.1, memberof-op).
static MEMBER_WORDS: [(&str, Operator); 8] = [
    ("Member_of", Operator::MemberOf),
    ("Device_Member_of", Operator::DeviceMemberOf),
    ("Member_of_Any", Operator::MemberOfAny),
    ("Device_Member_of_Any", Operator::DeviceMemberOfAny),
    ("Not_Member_of", Operator::NotMemberOf),
    ("Not_Device_Member_of", Operator::NotDeviceMemberOf),
    ("Not_Member_of_Any", Operator::NotMemberOfAny),
    ("Not_Device_Member_of_Any", Operator::NotDeviceMemberOfAny),
];

/// The words that compare an attribute ([MS-DTYP] 2.5.1.1, contains-op and anyof-op).
static COMPARING_WORDS: [(&str, Operator); 4] = [
    ("Contains", Operator::Contains),
    ("Any_of", Operator::AnyOf),
    ("Not_Contains", Operator::NotContains),
    ("Not_Any_of", Operator::NotAnyOf),
];

/// Consumes this word, of either case, unless a name goes on after it. Returns false, and consumes nothing, if it isn't
/// here.
fn eat_word(cursor: &mut Cursor<'_>, letters: &[u8]) -> bool
    ensures stood { result ≡ is_word cursor.old.rest.now letters.now }
    ensures rest { cursor.new.rest.now
        ≡ (if result then drop (length letters.now) cursor.old.rest.now else cursor.old.rest.now) }
    ensures shorter { IsTrue result → length cursor.new.rest.now < length cursor.old.rest.now }
    ensures within { length cursor.new.rest.now ≤ length cursor.old.rest.now }
{
    if !cursor.begins(letters) {
        return false;
    }
    let (_, rest) = cursor.rest.split_at(letters.len());
    if run_len(Class::Plain, rest) != 0 {
        return false;
    }
    cursor.rest = rest;
    true
}

/// Consumes the first word of the table that is here, and returns its meaning.
fn eat_word_of(cursor: &mut Cursor<'_>, words: &[(&str, Operator)]) -> Option<Operator>
    ensures word { Names result cursor.old.rest.now cursor.new.rest.now
        (worded (rows words.now) cursor.old.rest.now) }
    ensures shorter { IfSome result (λ _. length cursor.new.rest.now < length cursor.old.rest.now) }
    ensures within { length cursor.new.rest.now ≤ length cursor.old.rest.now }
{
    for (letters, operator) in words {
        if eat_word(cursor, letters.as_bytes()) {
            return Some(*operator);
        }
    }
    None
}

/// Consumes a word that precedes an attribute.
pub(crate) fn eat_exists_word(cursor: &mut Cursor<'_>) -> Option<Operator>
    ensures word { Names result cursor.old.rest.now cursor.new.rest.now (worded exists_words cursor.old.rest.now) }
    ensures shorter { IfSome result (λ _. length cursor.new.rest.now < length cursor.old.rest.now) }
    ensures within { length cursor.new.rest.now ≤ length cursor.old.rest.now }
{
    eat_word_of(cursor, &EXISTS_WORDS)
}

/// Consumes a word that precedes SIDs.
pub(crate) fn eat_member_word(cursor: &mut Cursor<'_>) -> Option<Operator>
    ensures word { Names result cursor.old.rest.now cursor.new.rest.now (worded member_words cursor.old.rest.now) }
    ensures shorter { IfSome result (λ _. length cursor.new.rest.now < length cursor.old.rest.now) }
    ensures within { length cursor.new.rest.now ≤ length cursor.old.rest.now }
{
    eat_word_of(cursor, &MEMBER_WORDS)
}

/// Consumes a word that compares.
fn eat_comparing_word(cursor: &mut Cursor<'_>) -> Option<Operator>
    ensures word { Names result cursor.old.rest.now cursor.new.rest.now (worded comparing_words cursor.old.rest.now) }
    ensures within { length cursor.new.rest.now ≤ length cursor.old.rest.now }
{
    eat_word_of(cursor, &COMPARING_WORDS)
}

/// Consumes the operator of a comparison, if one is here.
#[tactic(auto, unfolding(crate::specs::Operator::comparison))]
pub(crate) fn eat_comparison(cursor: &mut Cursor<'_>) -> Option<Operator>
    ensures operator { comparison cursor.old.rest.now ≡ Ok (result, cursor.new.rest.now) }
    ensures within { length cursor.new.rest.now ≤ length cursor.old.rest.now }
{
    match eat_sign(cursor) {
        Some(operator) => Some(operator),
        None => eat_comparing_word(cursor),
    }
}

/// Consumes a sign that compares ([MS-DTYP] 2.5.1.1, rel-op). A longer one is tried before its prefix.
fn eat_sign(cursor: &mut Cursor<'_>) -> Option<Operator>
    ensures sign { Names result cursor.old.rest.now cursor.new.rest.now (named signs cursor.old.rest.now) }
    ensures within { length cursor.new.rest.now ≤ length cursor.old.rest.now }
{
    if cursor.eat(b"==") {
        Some(Operator::Equal)
    } else if cursor.eat(b"!=") {
        Some(Operator::NotEqual)
    } else if cursor.eat(b"<=") {
        Some(Operator::LessOrEqual)
    } else if cursor.eat(b">=") {
        Some(Operator::GreaterOrEqual)
    } else if cursor.eat(b"<") {
        Some(Operator::Less)
    } else if cursor.eat(b">") {
        Some(Operator::Greater)
    } else {
        None
    }
}
