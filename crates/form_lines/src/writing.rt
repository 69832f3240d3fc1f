//! The component lines of a table.
ghost use Rattle.std.specs.Prelude.{◌≡◌, ◌+◌, ◌-◌, ◌∷◌, [], ◌++◌, ◌<◌, ◌≤◌, ℕ, List, length, map, take, codes, IfOk, IfSome, OnOk, OnErr, IsTrue, slice_range, vec_len, vec_capacity};
ghost use Rattle.tensor_defs.specs.Lists.{Each};
ghost use Rattle.tensor_defs.specs.Tensor.{digit, index_of};
ghost use Rattle.text_defs.specs.AnswerTexts.{digits_text, component_line, component_name, equation, rational, table_text};
ghost use Rattle.text_defs.specs.NumberTexts.{factor_text, is_negative, is_one, sum_text, term_text, without_sign};
ghost use Rattle.smallvec.specs.SmallVec.{HasRoomFor, small_vec_len};
ghost use Rattle.reduced_form.specs.Forms.{form_table, free_at, unit_fraction};
ghost use Rattle.form_lines.specs.Texts.{AreFreeMarks, IsLonger, named_terms, placed, takes_plus, text_at};

use exact_frac::{Frac, append};
use reduced_form::{Form, NoMemory, Term};
use smallvec::SmallVec;
use std::alloc::Global;
use tensor_rank::{Comp, Rank, Sign};

/// Appends bytes, or leaves the list as it was.
pub fn append_to(out: &mut Vec<u8>, bytes: &[u8]) -> Result<(), NoMemory>
    ensures ok { OnOk result (out.new.items ≡ out.old.items ++ bytes.now) }
    ensures longer { IsLonger out.old.items out.new.items }
    ensures capacity { vec_capacity out.old ≤ vec_capacity out.new }
{
    match out.extend_from_slice(bytes) {
        Ok(()) => Ok(()),
        Err(_) => Err(NoMemory),
    }
}

/// The index digits of the components of rank 3, in index order.
#[rattlefmt::skip]
static TRIPLES: [[u8; 3]; 27] = [
    *b"111", *b"112", *b"113", *b"121", *b"122", *b"123", *b"131", *b"132", *b"133",
    *b"211", *b"212", *b"213", *b"221", *b"222", *b"223", *b"231", *b"232", *b"233",
    *b"311", *b"312", *b"313", *b"321", *b"322", *b"323", *b"331", *b"332", *b"333",
];

/// The index digits of the component of rank 6 of a number.
fn six_digits(number: usize) -> [u8; 6]
    requires { number < 729 }
    ensures { result ≡ digits_text (map digit (index_of 6 number)) }
{
    let front = TRIPLES[number / 27];
    let back = TRIPLES[number % 27];
    [front[0], front[1], front[2], back[0], back[1], back[2]]
}

/// The name of a component, T and its index digits, and behind it what the rank leaves over.
pub fn name_bytes<R: Rank>(c: Comp<R>) -> [u8; 7]
    ensures { take (R.R + 1) result ≡ component_name (index_of R.R c) }
{
    let digits = six_digits(c.number() as usize);
    let mut name = [b'T'; 7];
    for place in 0..R::R {
        name[place + 1] = digits[6 - R::R + place];
    }
    name
}

/// The line of a free component as the last bytes, and before it what the rank leaves over.
fn free_line<R: Rank>(c: Comp<R>) -> [u8; 13]
    ensures { slice_range result (6 - R.R) 13 ≡ component_name (index_of R.R c) ++ 32 ∷ (codes "free" ++ 10 ∷ []) }
{
    let digits = six_digits(c.number() as usize);
    #[rattlefmt::skip]
    let mut line = [
        b'T', digits[0], digits[1], digits[2], digits[3], digits[4], digits[5],
        b' ', b'f', b'r', b'e', b'e', b'\n',
    ];
    line[6 - R::R] = b'T';
    line
}

/// The line of a component that is 0 as the last bytes, and before it what the rank leaves over.
fn zero_line<R: Rank>(c: Comp<R>) -> [u8; 12]
    ensures { slice_range result (6 - R.R) 12 ≡ component_name (index_of R.R c) ++ 32 ∷ 61 ∷ 32 ∷ 48 ∷ 10 ∷ [] }
{
    let digits = six_digits(c.number() as usize);
    #[rattlefmt::skip]
    let mut line = [
        b'T', digits[0], digits[1], digits[2], digits[3], digits[4], digits[5],
        b' ', b'=', b' ', b'0', b'\n',
    ];
    line[6 - R::R] = b'T';
    line
}

/// The name of a component and the end of its line, and behind it what the rank leaves over.
fn last_name<R: Rank>(c: Comp<R>) -> [u8; 8]
    ensures { take (R.R + 2) result ≡ component_name (index_of R.R c) ++ 10 ∷ [] }
{
    let name = name_bytes(c);
    #[rattlefmt::skip]
    let mut last = [name[0], name[1], name[2], name[3], name[4], name[5], name[6], b'\n'];
    last[R::R + 1] = b'\n';
    last
}

/// The line of a component that is a free one, before and behind it what the rank leaves over.
fn plus_line<R: Rank>(c: Comp<R>, free: Comp<R>) -> [u8; 18]
    ensures { slice_range result (6 - R.R) (R.R + 12) ≡ component_name (index_of R.R c) ++ 32 ∷ 61 ∷ 32 ∷ (component_name (index_of R.R free) ++ 10 ∷ []) }
{
    let digits = six_digits(c.number() as usize);
    let last = last_name(free);
    #[rattlefmt::skip]
    let mut line = [
        b'T', digits[0], digits[1], digits[2], digits[3], digits[4], digits[5], b' ', b'=', b' ',
        last[0], last[1], last[2], last[3], last[4], last[5], last[6], last[7],
    ];
    line[6 - R::R] = b'T';
    line
}

/// The line of a component that is minus a free one, before and behind it what the rank leaves over.
fn minus_line<R: Rank>(c: Comp<R>, free: Comp<R>) -> [u8; 19]
    ensures { slice_range result (6 - R.R) (R.R + 13) ≡ component_name (index_of R.R c) ++ 32 ∷ 61 ∷ 32 ∷ 45 ∷ (component_name (index_of R.R free) ++ 10 ∷ []) }
{
    let digits = six_digits(c.number() as usize);
    let last = last_name(free);
    #[rattlefmt::skip]
    let mut line = [
        b'T', digits[0], digits[1], digits[2], digits[3], digits[4], digits[5], b' ', b'=', b' ', b'-',
        last[0], last[1], last[2], last[3], last[4], last[5], last[6], last[7],
    ];
    line[6 - R::R] = b'T';
    line
}

/// Appends the name of a component.
fn write_name<R: Rank>(c: Comp<R>, out: &mut Vec<u8>) -> Result<(), NoMemory>
    ensures ok { OnOk result (out.new.items ≡ out.old.items ++ component_name (index_of R.R c)) }
    ensures longer { IsLonger out.old.items out.new.items }
    ensures capacity { vec_capacity out.old ≤ vec_capacity out.new }
{
    let name = name_bytes(c);
    append_to(out, &name[..R::R + 1])
}

/// Whether a fraction is 1.
fn is_one_factor(factor: &Frac) -> bool
    ensures { result ≡ is_one factor.now }
{
    factor.den() == 1 && factor.num() == 1
}

/// Whether a fraction is negative.
fn is_negative_factor(factor: &Frac) -> bool
    ensures { result ≡ is_negative factor.now }
{
    factor.num() < 0
}

/// A fraction without its sign.
fn size_of_factor(factor: &Frac) -> Frac
    ensures { result ≡ without_sign factor.now }
{
    if is_negative_factor(factor) {
        factor.neg()
    } else {
        *factor
    }
}

/// Appends the factor of a name: nothing at 1, - at -1, else its text and *.
pub fn push_factor(text: &mut SmallVec<u8, 64>, alloc: Global, factor: &Frac)
    requires { HasRoomFor text.old 41 }
    ensures items { text.new.items ≡ text.old.items ++ factor_text (rational factor.now) }
    ensures len { small_vec_len text.new ≤ small_vec_len text.old + 41 }
    ensures capacity { text.new.capacity ≡ text.old.capacity }
{
    if !is_one_factor(&size_of_factor(factor)) {
        append(text, factor.text(alloc).as_slice());
        append(text, b"*");
    } else if is_negative_factor(factor) {
        append(text, b"-");
    }
}

/// The text of a term: its factor and the name of its free component.
fn term_of<R: Rank>(alloc: Global, form: &Form<R>, term: &Term) -> SmallVec<u8, 64>
    requires { term.now.free < length form.now.free }
    ensures { result.items ≡ term_text (rational term.now.factor) (component_name (index_of R.R (free_at form.now.free term.now.free))) }
{
    let mut text = SmallVec::new(alloc);
    push_factor(&mut text, alloc, &term.factor);
    let name = name_bytes(form.free_at(term.free as usize));
    append(&mut text, &name[..R::R + 1]);
    text
}

/// Whether + stands before a term at a place of a sum: before a later one, unless it begins with -.
fn takes_plus(text: &[u8], place: usize) -> bool
    ensures { result ≡ takes_plus place text.now }
{
    match text.first() {
        Some(byte) => place > 0 && *byte != b'-',
        None => false,
    }
}

/// Appends a term at a place of a sum: the first one as it is, a later one with + before it unless it begins with -.
pub fn write_term(text: &[u8], place: usize, out: &mut Vec<u8>) -> Result<(), NoMemory>
    ensures ok { OnOk result (out.new.items ≡ out.old.items ++ placed place text.now) }
    ensures longer { IsLonger out.old.items out.new.items }
    ensures capacity { vec_capacity out.old ≤ vec_capacity out.new }
{
    if takes_plus(text, place) {
        append_to(out, b"+")?;
    }
    append_to(out, text)
}

/// The sign of a factor that is 1 or -1, and none for others.
pub fn unit_sign(factor: &Frac) -> Option<Sign>
    ensures { IfSome result (λ s. factor.now ≡ unit_fraction s) }
{
    if factor.den() != 1 {
        return None;
    }
    if factor.num() == 1 {
        return Some(Sign::Plus);
    }
    if factor.num() == -1 {
        return Some(Sign::Minus);
    }
    None
}

/// Appends a term of a table at a place of a sum.
fn write_term_of<R: Rank>(
    form: &Form<R>,
    term: &Term,
    place: usize,
    out: &mut Vec<u8>,
) -> Result<(), NoMemory>
    requires { term.now.free < length form.now.free }
    ensures ok { OnOk result (out.new.items ≡ out.old.items ++ placed place (text_at R.R form.now term.now)) }
    ensures longer { IsLonger out.old.items out.new.items }
    ensures capacity { vec_capacity out.old ≤ vec_capacity out.new }
{
    match unit_sign(&term.factor) {
        Some(Sign::Plus) => {
            let name = name_bytes(form.free_at(term.free as usize));
            write_term(&name[..R::R + 1], place, out)
        }
        Some(Sign::Minus) => {
            append_to(out, b"-")?;
            write_name(form.free_at(term.free as usize), out)
        }
        None => {
            let text = term_of(form.alloc(), form, term);
            write_term(text.as_slice(), place, out)
        }
    }
}

/// Appends the sum of a row: 0 where it has no term.
fn write_sum<R: Rank>(form: &Form<R>, row: &[Term], out: &mut Vec<u8>) -> Result<(), NoMemory>
    requires { Each (λ t. t.free < length form.now.free) row.now }
    ensures ok { OnOk result (out.new.items ≡ out.old.items ++ sum_text (named_terms R.R form.now row.now)) }
    ensures longer { IsLonger out.old.items out.new.items }
    ensures capacity { vec_capacity out.old ≤ vec_capacity out.new }
{
    if row.is_empty() {
        return append_to(out, b"0");
    }
    for place in 0..row.len() {
        write_term_of(form, &row[place], place, out)?;
    }
    Ok(())
}

/// For each component whether it is free.
fn free_marks<R: Rank>(form: &Form<R>) -> Result<Vec<bool>, NoMemory>
    ensures { IfOk result (λ marks. AreFreeMarks R.LEN R.R form.now.free marks.items) }
{
    let mut marks = Vec::with_capacity(form.alloc(), R::LEN)?;
    for _ in 0..R::LEN {
        marks.push_reserved(false);
    }
    for place in 0..form.free_count() {
        marks[form.free_at(place).number() as usize] = true;
    }
    Ok(marks)
}

/// Appends the line of a component that is a free one with a sign.
fn write_unit<R: Rank>(
    c: Comp<R>,
    sign: Sign,
    free: Comp<R>,
    out: &mut Vec<u8>,
) -> Result<(), NoMemory>
    ensures ok { OnOk result (out.new.items ≡ out.old.items ++ equation (component_name (index_of R.R c)) (record { factor = rational (unit_fraction sign); name = component_name (index_of R.R free) } ∷ [])) }
    ensures longer { IsLonger out.old.items out.new.items }
    ensures capacity { vec_capacity out.old ≤ vec_capacity out.new }
{
    match sign {
        Sign::Plus => {
            let line = plus_line(c, free);
            append_to(out, &line[6 - R::R..R::R + 12])
        }
        Sign::Minus => {
            let line = minus_line(c, free);
            append_to(out, &line[6 - R::R..R::R + 13])
        }
    }
}

/// Appends the line of a component that is a sum, piece by piece.
fn write_terms<R: Rank>(
    form: &Form<R>,
    c: Comp<R>,
    row: &[Term],
    out: &mut Vec<u8>,
) -> Result<(), NoMemory>
    requires { Each (λ t. t.free < length form.now.free) row.now }
    ensures ok { OnOk result (out.new.items ≡ out.old.items ++ equation (component_name (index_of R.R c)) (named_terms R.R form.now row.now)) }
    ensures longer { IsLonger out.old.items out.new.items }
    ensures capacity { vec_capacity out.old ≤ vec_capacity out.new }
{
    write_name(c, out)?;
    append_to(out, b" = ")?;
    write_sum(form, row, out)?;
    append_to(out, b"\n")
}

/// Appends the line of a component that isn't free: what is 0 or plus or minus one free component at once.
fn write_equation<R: Rank>(
    form: &Form<R>,
    c: Comp<R>,
    row: &[Term],
    out: &mut Vec<u8>,
) -> Result<(), NoMemory>
    requires { Each (λ t. t.free < length form.now.free) row.now }
    ensures ok { OnOk result (out.new.items ≡ out.old.items ++ equation (component_name (index_of R.R c)) (named_terms R.R form.now row.now)) }
    ensures longer { IsLonger out.old.items out.new.items }
    ensures capacity { vec_capacity out.old ≤ vec_capacity out.new }
{
    if row.is_empty() {
        let line = zero_line(c);
        return append_to(out, &line[6 - R::R..12]);
    }
    if row.len() == 1 {
        if let Some(sign) = unit_sign(&row[0].factor) {
            return write_unit(c, sign, form.free_at(row[0].free as usize), out);
        }
    }
    write_terms(form, c, row, out)
}

/// Appends the line of the component of a number.
fn write_line<R: Rank>(
    form: &Form<R>,
    marks: &[bool],
    number: usize,
    out: &mut Vec<u8>,
) -> Result<(), NoMemory>
    requires number { number < R.LEN }
    requires marks { AreFreeMarks R.LEN R.R form.now.free marks.now }
    ensures ok { OnOk result (out.new.items ≡ out.old.items ++ component_line (form_table R.R form.now) (index_of R.R number)) }
    ensures longer { IsLonger out.old.items out.new.items }
    ensures capacity { vec_capacity out.old ≤ vec_capacity out.new }
{
    let c = Comp::at(number);
    if marks[number] {
        let line = free_line(c);
        return append_to(out, &line[6 - R::R..13]);
    }
    write_equation(form, c, form.row(c), out)
}

/// Appends the lines of all components. After an error, lines may stand behind what was there.
fn write_lines<R: Rank>(form: &Form<R>, out: &mut Vec<u8>) -> Result<(), NoMemory>
    ensures ok { OnOk result (out.new.items ≡ out.old.items ++ table_text R.R (form_table R.R form.now)) }
    ensures longer { IsLonger out.old.items out.new.items }
    ensures capacity { vec_capacity out.old ≤ vec_capacity out.new }
{
    let marks = free_marks(form)?;
    for number in 0..R::LEN {
        write_line(form, &marks, number, out)?;
    }
    Ok(())
}

/// Appends the component lines of a table. After `NoMemory` the list is as before.
pub fn write_table<R: Rank>(form: &Form<R>, out: &mut Vec<u8>) -> Result<(), NoMemory>
    ensures ok { OnOk result (out.new.items ≡ out.old.items ++ table_text R.R (form_table R.R form.now)) }
    ensures err { OnErr result (out.new.items ≡ out.old.items) }
    ensures capacity { vec_capacity out.old ≤ vec_capacity out.new }
{
    let start = out.len();
    let written = write_lines(form, out);
    if written.is_err() {
        out.truncate(start);
    }
    written
}
