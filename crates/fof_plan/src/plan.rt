// What a due does with the sign ahead, as a plan: what is written, what is due then, and whether the sign is taken.
ghost use Rattle.std.specs.Prelude.{ℕ, ◌<◌, ◌≡◌, true, [], ◌∷◌, ◌++◌};
ghost use Rattle.basics.specs.Text.{octets};
ghost use Rattle.fof_part.specs.Due.{did, headed, many_headed, link_word, link_code, by_chain, quantified, topped, unit_at, variable_at, behind_at, arguments_at, terms_at, term_at, due_at};
ghost use Rattle.fof_part.specs.Due as part;
ghost use Rattle.fof_pass.specs.declared.dues.Due.TheVariants as D;
ghost use Rattle.fof_pass.specs.Codes.{code_is};
ghost use Rattle.fof_pass.specs.Dues.{sort_is, link_is, quantifier_is, meant};
ghost use Rattle.fof_plan.specs.Chained.{chain_is};
ghost use Rattle.fof_plan.specs.Planned.{beyond, refusal, doing, taking_to, FewBy, PlansAs, Plans};

use crate::chain::{Chain, First, chain_ahead};
use fof_pass::{Due, Sign, Sort};

// What is written.
#[derive(Clone, Copy)]
pub enum Writes {
    // Kept: to write nothing is one of ten things that a plan does (`written`), and an Option would wrap the nine others.
    Nothing,
    // so many heads of `and` or of `or`
    Heads { conj: bool, number: usize },
    // the head of an implication
    Implies,
    // the head of `all` or of `some`, for the variable ahead
    Binds(bool),
    // the whole of `top`
    Top,
    // the head of an atom, or of a function, with the name ahead
    Atom,
    Function,
    // the variable ahead, by its number
    Variable,
    // the end of a list; and the nearest variable is no longer bound
    End,
    Leaves,
}

// Kept: the definitions `planned` and `refusal` have the flag as a field, and `Acts` asks of a refused plan too that few are due.
#[derive(Clone, Copy)]
pub struct Plan {
    pub ok: bool,
    pub takes: bool,
    pub writes: Writes,
    pub first: Due,
    pub second: Due,
    pub third: Due,
    pub fourth: Due,
}

// Nothing can be done.
fn refused() -> Plan
    ensures { result ≡ refusal }
{
    Plan {
        ok: false,
        takes: false,
        writes: Writes::Nothing,
        first: Due::Nothing,
        second: Due::Nothing,
        third: Due::Nothing,
        fourth: Due::Nothing,
    }
}

// This is written, with nothing due then.
fn writing(takes: bool, writes: Writes) -> Plan
    ensures { result ≡ doing takes writes D.Nothing D.Nothing D.Nothing D.Nothing }
{
    Plan {
        ok: true,
        takes,
        writes,
        first: Due::Nothing,
        second: Due::Nothing,
        third: Due::Nothing,
        fourth: Due::Nothing,
    }
}

// Two are due then, the first on top.
fn leading(takes: bool, writes: Writes, first: Due, second: Due) -> Plan
    ensures { result ≡ doing takes writes first second D.Nothing D.Nothing }
{
    Plan {
        ok: true,
        takes,
        writes,
        first,
        second,
        third: Due::Nothing,
        fourth: Due::Nothing,
    }
}

// The sign is the one that is expected, or nothing can be done.
fn taken(sign: Sign, wanted: Sign, first: Due, second: Due, third: Due) -> Plan
    ensures { (n : ℕ) → code_is wanted < 16 → FewBy n first second third → PlansAs (taking_to (code_is wanted) (meant first ++ (meant second ++ (meant third ++ [])))) (code_is sign) n result }
{
    if sign == wanted {
        return Plan {
            ok: true,
            takes: true,
            writes: Writes::Nothing,
            first,
            second,
            third,
            fourth: Due::Nothing,
        };
    }
    refused()
}

// An implication, its left part of one sort and its right part of another.
fn implied(left: Sort, right: Sort) -> Plan
    ensures { (code n : ℕ) → PlansAs (λ sc ss. did (headed (octets "imp")) (part.Due.unit (sort_is left) ∷ part.Due.arrow ∷ part.Due.unit (sort_is right) ∷ part.Due.shut ∷ []) sc ss) code n result }
{
    Plan {
        ok: true,
        takes: false,
        writes: Writes::Implies,
        first: Due::Unit(left),
        second: Due::Arrow,
        third: Due::Unit(right),
        fourth: Due::Shut,
    }
}

fn linked(conj: bool, sort: Sort, number: usize) -> Plan
    ensures { (code : ℕ) → PlansAs (λ sc ss. did (many_headed (link_word (link_is conj)) number) (part.Due.unit (sort_is sort) ∷ part.Due.more (link_is conj) (sort_is sort) number ∷ []) sc ss) code number result }
{
    leading(
        false,
        Writes::Heads { conj, number },
        Due::Unit(sort),
        Due::More { conj, sort, number },
    )
}

// A formula, by its chain.
fn by_chain(sort: Sort, c: Chain) -> Plan
    ensures { (code : ℕ) → PlansAs (by_chain (sort_is sort) (chain_is c.first c.number)) code c.number result }
{
    let first = c.first;
    match first {
        First::Lone => leading(false, Writes::Nothing, Due::Unit(sort), Due::Nothing),
        First::Conj => match sort {
            Sort::Goal => linked(true, Sort::Goal, c.number),
            Sort::Clause => linked(true, Sort::Clause, c.number),
            Sort::Head => refused(),
        },
        First::Disj => match sort {
            Sort::Goal => linked(false, Sort::Goal, c.number),
            Sort::Clause => refused(),
            Sort::Head => refused(),
        },
        First::Implied => match sort {
            Sort::Goal => implied(Sort::Clause, Sort::Goal),
            Sort::Clause => implied(Sort::Goal, Sort::Head),
            Sort::Head => refused(),
        },
    }
}

fn quantified(every: bool, sort: Sort) -> Plan
    ensures { (code n : ℕ) → code < 16 → PlansAs (λ sc ss. quantified (quantifier_is every) (sort_is sort) sc (beyond true ss)) code n result }
{
    match sort {
        Sort::Goal => leading(
            true,
            Writes::Nothing,
            Due::List { every, sort },
            Due::Nothing,
        ),
        Sort::Clause => {
            if every {
                return leading(
                    true,
                    Writes::Nothing,
                    Due::List { every, sort },
                    Due::Nothing,
                );
            }
            refused()
        }
        Sort::Head => refused(),
    }
}

fn topped(sort: Sort) -> Plan
    ensures { (code n : ℕ) → code < 16 → PlansAs (λ sc ss. topped (sort_is sort) sc (beyond true ss)) code n result }
{
    match sort {
        Sort::Goal => writing(true, Writes::Top),
        Sort::Clause => refused(),
        Sort::Head => refused(),
    }
}

fn unit(sort: Sort, sign: Sign) -> Plan
    ensures { PlansAs (unit_at (sort_is sort)) (code_is sign) 0 result }
{
    match sign {
        Sign::Lower => leading(true, Writes::Atom, Due::Arguments, Due::Shut),
        Sign::Truth => topped(sort),
        Sign::Opens => leading(true, Writes::Nothing, Due::Formula(sort), Due::Close),
        Sign::Every => quantified(true, sort),
        Sign::Exist => quantified(false, sort),
        _ => refused(),
    }
}

// The sign between the members of a chain.
// Kept: a sign here and a beginning in equal's `told`: they share an `if`, and neither a type nor a clause.
fn link_sign(conj: bool) -> Sign
    ensures { code_is result ≡ link_code (link_is conj) }
{
    if conj { Sign::Both } else { Sign::Either }
}

fn more(conj: bool, sort: Sort, number: usize, sign: Sign) -> Plan
    ensures { PlansAs (due_at (part.Due.more (link_is conj) (sort_is sort) number)) (code_is sign) number result }
{
    if number == 0 {
        return writing(false, Writes::Nothing);
    }
    let next = Due::More {
        conj,
        sort,
        number: number - 1,
    };
    taken(sign, link_sign(conj), Due::Unit(sort), Due::Shut, next)
}

fn variable(every: bool, sort: Sort, sign: Sign) -> Plan
    ensures { PlansAs (variable_at (quantifier_is every) (sort_is sort)) (code_is sign) 0 result }
{
    match sign {
        Sign::Upper => leading(
            true,
            Writes::Binds(every),
            Due::Behind { every, sort },
            Due::Leave,
        ),
        _ => refused(),
    }
}

fn behind(every: bool, sort: Sort, sign: Sign) -> Plan
    ensures { PlansAs (behind_at (quantifier_is every) (sort_is sort)) (code_is sign) 0 result }
{
    match sign {
        Sign::Comma => leading(
            true,
            Writes::Nothing,
            Due::Variable { every, sort },
            Due::Nothing,
        ),
        _ => taken(
            sign,
            Sign::Ends,
            Due::Over(sort),
            Due::Nothing,
            Due::Nothing,
        ),
    }
}

fn arguments(sign: Sign) -> Plan
    ensures { PlansAs arguments_at (code_is sign) 0 result }
{
    match sign {
        Sign::Opens => leading(true, Writes::Nothing, Due::Term, Due::Terms),
        _ => writing(false, Writes::Nothing),
    }
}

fn terms(sign: Sign) -> Plan
    ensures { PlansAs terms_at (code_is sign) 0 result }
{
    match sign {
        Sign::Comma => leading(true, Writes::Nothing, Due::Term, Due::Terms),
        _ => taken(sign, Sign::Closes, Due::Nothing, Due::Nothing, Due::Nothing),
    }
}

fn term(sign: Sign) -> Plan
    ensures { PlansAs term_at (code_is sign) 0 result }
{
    match sign {
        Sign::Upper => writing(true, Writes::Variable),
        Sign::Lower => leading(true, Writes::Function, Due::Arguments, Due::Shut),
        _ => refused(),
    }
}

// What a due does at a place, where this sign is ahead.
pub fn plan_for(text: &[u8], at: usize, d: Due, sign: Sign) -> Plan
    ensures { Plans text.now at d (code_is sign) result }
{
    match d {
        Due::Nothing => refused(),
        Due::Formula(s) => by_chain(s, chain_ahead(text, at)),
        Due::Unit(s) => unit(s, sign),
        Due::More { conj, sort, number } => more(conj, sort, number, sign),
        Due::Arrow => taken(sign, Sign::Then, Due::Nothing, Due::Nothing, Due::Nothing),
        Due::Close => taken(sign, Sign::Closes, Due::Nothing, Due::Nothing, Due::Nothing),
        Due::List { every, sort } => taken(
            sign,
            Sign::Lists,
            Due::Variable { every, sort },
            Due::Nothing,
            Due::Nothing,
        ),
        Due::Variable { every, sort } => variable(every, sort, sign),
        Due::Behind { every, sort } => behind(every, sort, sign),
        Due::Over(s) => taken(sign, Sign::Colon, Due::Unit(s), Due::Nothing, Due::Nothing),
        Due::Arguments => arguments(sign),
        Due::Term => term(sign),
        Due::Terms => terms(sign),
        Due::Shut => writing(false, Writes::End),
        Due::Leave => writing(false, Writes::Leaves),
    }
}
