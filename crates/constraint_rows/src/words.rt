//! The even and odd rows of words over z, + and -: a rotation about z multiplies the sum of a word by a unit number.
ghost use Rattle.std.specs.Prelude.{◌≡◌, ℕ, ◌+◌, ◌*◌, ◌<◌, ◌≤◌, ◌++◌, ◌≢◌, [], IfOk, OnOk, ◌==◌, if◌then◌else◌, filter, length, map, List};
ghost use Rattle.tensor_defs.specs.Elimination.{AreRepresentatives};
ghost use Rattle.tensor_defs.specs.Frames.{AllOf, IsFramed, IsPlain};
ghost use Rattle.tensor_defs.specs.Jahn.{JahnSymbol};
ghost use Rattle.tensor_defs.specs.Words.{is_used, words};
ghost use Rattle.magnetic_groups.specs.Sets.{In};
ghost use Rattle.sign_moves.specs.declared.classes.Entry.{Entry};
ghost use Rattle.tensor_rank.specs.Orders.{before_at, before_of};
ghost use Rattle.tensor_rank.specs.Shapes.{IsShapeOf};
ghost use Rattle.constraint_rows.specs.Choices.{is_chosen, is_turning};
ghost use Rattle.constraint_rows.specs.Gathering.{AreRowsBelow, AreSmallParts, AreSmallTerms, AreTermsBelow, gathered, raised, term_added, terms_from, turn_sign, word_at};
ghost use Rattle.constraint_rows.specs.WordRows.{AreParts, AreSound, AreWordRows, carrier_of};

use crate::axis::axis_classes;
use crate::choosing::{Rotations, is_chosen};
use crate::classing::Classes;
use crate::gathering::add_part;
use crate::rows::{Part, Row};
use magnetic_groups::Group;
use sign_moves::{NoMemory, Sign, times};
use std::alloc::Global;
use tensor_rank::{Comp, Order, Rank, Shape};

/// A component that belongs to a word, with its factor as a power of i.
#[derive(Clone, Copy, Debug, PartialEq, Eq)]
pub(crate) struct Term {
    component: u16,
    quarters: u8,
}

/// The power of i that an index 2 gives at a place of + (digit 2) or of - (digit 3).
fn turn_at(digit: u8) -> u8
    ensures { result ≡ (if digit == 2 then 1 else 3) }
{
    if digit == 2 { 1 } else { 3 }
}

/// A term with its component and its power of i raised.
fn raised(term: Term, by: u16, quarters: u8) -> Term
    requires component { term.component + by < 65536 }
    requires quarters { term.quarters + quarters < 256 }
    ensures { result ≡ raised by quarters term }
{
    Term {
        component: term.component + by,
        quarters: term.quarters + quarters,
    }
}

/// Raises the component of each term.
fn raise_all(terms: &mut Vec<Term>, by: u16)
    requires small { AreSmallTerms terms.old.items }
    requires by { by ≤ 486 }
    ensures { terms.new.items ≡ map (raised by 0) terms.old.items }
{
    for place in 0..terms.len() {
        terms[place] = raised(terms[place], by, 0);
    }
}

/// Lists each term once more, with its component and its power of i raised.
fn push_raised(terms: &mut Vec<Term>, by: u16, quarters: u8) -> Result<(), NoMemory>
    requires small { AreSmallTerms terms.old.items }
    requires by { by ≤ 243 }
    requires quarters { quarters ≤ 3 }
    ensures { OnOk result (terms.new.items ≡ terms.old.items ++ map (raised by quarters) terms.old.items) }
{
    for place in 0..terms.len() {
        let term = terms[place];
        terms.push(raised(term, by, quarters))?;
    }
    Ok(())
}

/// The terms of a word with one more letter in front, by its digit, from those of the word; an index 2 counts the weight.
fn put_letter(terms: &mut Vec<Term>, digit: u8, weight: u16) -> Result<(), NoMemory>
    requires small { AreSmallTerms terms.old.items }
    requires weight { weight ≤ 243 }
    ensures level { digit ≡ 1 → OnOk result (terms.new.items ≡ map (raised (2 * weight) 0) terms.old.items) }
    ensures other { digit ≢ 1 → OnOk result (terms.new.items ≡ terms.old.items ++ map (raised weight (if digit == 2 then 1 else 3)) terms.old.items) }
{
    if digit == 1 {
        raise_all(terms, 2 * weight);
        return Ok(());
    }
    push_raised(terms, weight, turn_at(digit))
}

/// Lists the components that belong to a word, each with its factor, in place of what the list held: from the last
/// letter on, each letter other than z doubles the list.
fn list_terms<R: Rank>(terms: &mut Vec<Term>, word: Comp<R>) -> Result<(), NoMemory>
    ensures { OnOk result (terms.new.items ≡ terms_from 0 0 (word_at R.R word)) }
{
    terms.clear();
    terms.push(Term {
        component: 0,
        quarters: 0,
    })?;
    let mut weight = 1;
    for place in (0..R::R).rev() {
        put_letter(terms, word.digit(place), weight)?;
        weight *= 3;
    }
    Ok(())
}

/// The sign in front of 1 or i in a power of i.
fn turn_sign(quarters: u8) -> Sign
    ensures { result ≡ turn_sign quarters }
{
    if quarters / 2 % 2 == 0 {
        Sign::Plus
    } else {
        Sign::Minus
    }
}

/// Adds what a component gives to the even or the odd row, as its power of i tells, at its representative.
fn add_term<R: Rank>(
    even: &mut Vec<Part>,
    odd: &mut Vec<Part>,
    classes: &Classes<R>,
    order: &Order<R>,
    term: Term,
) -> Result<(), NoMemory>
    requires component { term.component < R.LEN }
    requires even { AreSmallParts R.LEN (before_at R.R order.now) 729 even.old.items }
    requires odd { AreSmallParts R.LEN (before_at R.R order.now) 729 odd.old.items }
    ensures even { OnOk result (even.new.items ≡ term_added (before_at R.R order.now) classes.now 0 term even.old.items) }
    ensures odd { OnOk result (odd.new.items ≡ term_added (before_at R.R order.now) classes.now 1 term odd.old.items) }
{
    let Some((first, sign)) = classes.of(Comp::at(term.component as usize)) else {
        return Ok(());
    };
    let sign = times(sign, turn_sign(term.quarters));
    if term.quarters % 2 == 0 {
        add_part(even, order, first, sign)
    } else {
        add_part(odd, order, first, sign)
    }
}

/// The parts of the even and of the odd row of the components that belong to a word, in place of what the lists held.
fn gather<R: Rank>(
    even: &mut Vec<Part>,
    odd: &mut Vec<Part>,
    terms: &[Term],
    classes: &Classes<R>,
    order: &Order<R>,
) -> Result<(), NoMemory>
    requires sound { AreSound R.LEN (before_at R.R order.now) classes.now }
    requires below { AreTermsBelow R.LEN terms.now }
    requires few { length terms.now ≤ 729 }
    ensures even { OnOk result (even.new.items ≡ gathered (before_at R.R order.now) classes.now 0 terms.now []) }
    ensures odd { OnOk result (odd.new.items ≡ gathered (before_at R.R order.now) classes.now 1 terms.now []) }
    ensures even_parts { OnOk result (AreParts R.LEN even.new.items) }
    ensures odd_parts { OnOk result (AreParts R.LEN odd.new.items) }
{
    even.clear();
    odd.clear();
    for place in 0..terms.len() {
        add_term(even, odd, classes, order, terms[place])?;
    }
    Ok(())
}

/// Adds the even and the odd row of a word, if it is chosen.
fn add_word<R: Rank>(
    alloc: Global,
    rotations: Rotations,
    rows: &mut Vec<Row<R>>,
    terms: &mut Vec<Term>,
    even: &mut Vec<Part>,
    odd: &mut Vec<Part>,
    classes: &Classes<R>,
    order: &Order<R>,
    word: Comp<R>,
) -> Result<(), NoMemory>
    requires sound { AreSound R.LEN (before_at R.R order.now) classes.now }
    requires rows { AreRowsBelow R.R (before_at R.R order.now) classes.now (is_chosen rotations) word rows.old.items }
    ensures { OnOk result (AreRowsBelow R.R (before_at R.R order.now) classes.now (is_chosen rotations) (word + 1) rows.new.items) }
{
    if !is_chosen(rotations, word) {
        return Ok(());
    }
    list_terms(terms, word)?;
    gather(even, odd, terms, classes, order)?;
    rows.push(Row::of_parts(alloc, even)?)?;
    rows.push(Row::of_parts(alloc, odd)?)?;
    Ok(())
}

/// The rows of the words that are chosen for rotations about z, carried over to the representatives.
fn chosen_rows<R: Rank>(
    alloc: Global,
    rotations: Rotations,
    classes: &Classes<R>,
    order: &Order<R>,
) -> Result<Vec<Row<R>>, NoMemory>
    requires sound { AreSound R.LEN (before_at R.R order.now) classes.now }
    ensures rows { IfOk result (λ v. AreWordRows R.R (before_at R.R order.now) classes.now (filter (is_chosen rotations) (words R.R)) v.items) }
{
    let mut rows = Vec::with_capacity(alloc, R::LEN)?;
    let mut terms = Vec::with_capacity(alloc, 64)?;
    let mut even = Vec::new(alloc);
    let mut odd = Vec::new(alloc);
    for number in 0..R::LEN {
        add_word(
            alloc,
            rotations,
            &mut rows,
            &mut terms,
            &mut even,
            &mut odd,
            classes,
            order,
            Comp::at(number),
        )?;
    }
    Ok(rows)
}

/// The rows of the words in use, carried over to the representatives: for each word its even row, then its odd row.
pub fn rows_of_words<R: Rank>(
    alloc: Global,
    classes: &Classes<R>,
    order: &Order<R>,
) -> Result<Vec<Row<R>>, NoMemory>
    requires sound { AreSound R.LEN (before_at R.R order.now) classes.now }
    ensures rows { IfOk result (λ v. AreWordRows R.R (before_at R.R order.now) classes.now (filter is_used (words R.R)) v.items) }
{
    chosen_rows(alloc, Rotations::Threefold, classes, order)
}

/// The rows for all rotations about z, carried over to the representatives: for each word in which the count of +
/// isn't that of -, and whose first letter other than z is +, its even row, then its odd row. No whole number in them
/// is above 729 in magnitude.
pub fn turning_rows<R: Rank>(
    alloc: Global,
    classes: &Classes<R>,
    order: &Order<R>,
) -> Result<Vec<Row<R>>, NoMemory>
    requires sound { AreSound R.LEN (before_at R.R order.now) classes.now }
    ensures rows { IfOk result (λ v. AreWordRows R.R (before_at R.R order.now) classes.now (filter is_turning (words R.R)) v.items) }
{
    chosen_rows(alloc, Rotations::All, classes, order)
}

/// The rows of the words in use for a group, a symbol and an order.
pub fn word_rows<R: Rank>(
    alloc: Global,
    group: &Group,
    shape: &Shape<R>,
    order: &Order<R>,
) -> Result<Vec<Row<R>>, NoMemory>
    requires framed { IsFramed (In group.now) }
    requires other { ¬ AllOf (In group.now) IsPlain }
    ensures rows { IfOk result (λ v. (cs : List Entry) × ((j : JahnSymbol) → IsShapeOf j R.R shape.now → AreRepresentatives j (In group.now) (before_of order.now) (carrier_of R.R cs)) × AreWordRows R.R (before_at R.R order.now) cs (filter is_used (words R.R)) v.items × AreSound R.LEN (before_at R.R order.now) cs) }
{
    let classes = axis_classes(alloc, group, shape, order)?;
    rows_of_words(alloc, &classes, order)
}
