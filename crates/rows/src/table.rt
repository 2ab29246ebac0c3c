// The table of words by matches (document 01, the table of words): what is due after a word of a kind, and what follows from what is due.
ghost use Rattle.std.specs.Prelude.{◌≡◌};
ghost use Rattle.packet.specs.declared.Kind.TheVariants as K;
ghost use Rattle.packet.specs.Table.{due_after, may_end, next};
ghost use Rattle.rows.specs.Rows.{row_of, follows_of};

use packet::{Due, Kind, Word};

fn term_row(w: Word) -> Option<Due>
    ensures { result ≡ row_of (due_after K.Term w) }
{
    match w {
        Word::V => Some(Due::One(Kind::Number)),
        Word::F => Some(Due::OneEach(Kind::Name, Kind::Term)),
        Word::E => Some(Due::One(Kind::Number)),
        _ => None,
    }
}

fn atom_row(w: Word) -> Option<Due>
    ensures { result ≡ row_of (due_after K.Atom w) }
{
    match w {
        Word::Atom => Some(Due::OneEach(Kind::Name, Kind::Term)),
        _ => None,
    }
}

fn goal_row(w: Word) -> Option<Due>
    ensures { result ≡ row_of (due_after K.Goal w) }
{
    match w {
        Word::Top => Some(Due::End),
        Word::Atom => Some(Due::OneEach(Kind::Name, Kind::Term)),
        Word::And => Some(Due::Two(Kind::Goal, Kind::Goal)),
        Word::Or => Some(Due::Two(Kind::Goal, Kind::Goal)),
        Word::Some => Some(Due::One(Kind::Goal)),
        Word::All => Some(Due::One(Kind::Goal)),
        Word::Imp => Some(Due::Two(Kind::Clause, Kind::Goal)),
        _ => None,
    }
}

fn clause_row(w: Word) -> Option<Due>
    ensures { result ≡ row_of (due_after K.Clause w) }
{
    match w {
        Word::Atom => Some(Due::OneEach(Kind::Name, Kind::Term)),
        Word::Imp => Some(Due::Two(Kind::Goal, Kind::Atom)),
        Word::All => Some(Due::One(Kind::Clause)),
        Word::And => Some(Due::Two(Kind::Clause, Kind::Clause)),
        _ => None,
    }
}

// Kept: each kind has its row of the table, as the definition has it (`due_after`, specs/Table of crate `packet`); a row with its word and kind as parameters is read with more trouble.
fn rules_row(w: Word) -> Option<Due>
    ensures { result ≡ row_of (due_after K.Rules w) }
{
    match w {
        Word::Rules => Some(Due::Each(Kind::Clause)),
        _ => None,
    }
}

fn terms_row(w: Word) -> Option<Due>
    ensures { result ≡ row_of (due_after K.Terms w) }
{
    match w {
        Word::Terms => Some(Due::Each(Kind::Term)),
        _ => None,
    }
}

fn strip_row(w: Word) -> Option<Due>
    ensures { result ≡ row_of (due_after K.Strip w) }
{
    match w {
        Word::Top => Some(Due::End),
        Word::And => Some(Due::Two(Kind::Strip, Kind::Strip)),
        Word::Left => Some(Due::One(Kind::Strip)),
        Word::Right => Some(Due::One(Kind::Strip)),
        Word::Some => Some(Due::Two(Kind::Number, Kind::Strip)),
        Word::All => Some(Due::One(Kind::Strip)),
        Word::Imp => Some(Due::One(Kind::Strip)),
        Word::Use => Some(Due::TwoPerhaps(Kind::Number, Kind::Path, Kind::Strip)),
        _ => None,
    }
}

// What is due after a word of a kind.
pub fn due_after(k: Kind, w: Word) -> Option<Due>
    ensures { result ≡ row_of (due_after k w) }
{
    match k {
        Kind::Name | Kind::Number | Kind::Step | Kind::Path => None,
        Kind::Term => term_row(w),
        Kind::Atom => atom_row(w),
        Kind::Goal => goal_row(w),
        Kind::Clause => clause_row(w),
        Kind::Rules => rules_row(w),
        Kind::Terms => terms_row(w),
        Kind::Strip => strip_row(w),
    }
}

// The kind of the next member, and what is due after it.
pub fn next_due(due: Due) -> Option<(Kind, Due)>
    ensures { result ≡ follows_of (next due) }
{
    match due {
        Due::End => None,
        Due::One(a) => Some((a, Due::End)),
        Due::Two(a, b) => Some((a, Due::One(b))),
        Due::Each(a) => Some((a, Due::Each(a))),
        Due::OneEach(a, b) => Some((a, Due::Each(b))),
        Due::Perhaps(a) => Some((a, Due::End)),
        Due::OnePerhaps(a, b) => Some((a, Due::Perhaps(b))),
        Due::TwoPerhaps(a, b, c) => Some((a, Due::OnePerhaps(b, c))),
    }
}

// The list may end here.
pub fn may_end(due: Due) -> bool
    ensures { result ≡ may_end due }
{
    matches!(due, Due::End | Due::Each(_) | Due::Perhaps(_))
}
