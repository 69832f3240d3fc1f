//! Where a move carries each component, made digit by digit.
ghost use Rattle.std.specs.Prelude.{◌≡◌, ℕ, ◌+◌, ◌*◌, ◌^◌, ◌<◌, ◌≤◌, IfOk, length, vec_capacity, vec_len};
ghost use Rattle.sign_moves.specs.Digits.{AreParts, IsDigitRow, IsSpread, joined_step, longer_step};
ghost use Rattle.sign_moves.specs.Tabling.{step_at};

use crate::memory::NoMemory;
use crate::signs::times;
use crate::tabled::Step;
use std::alloc::Global;
use std::mem::swap;
use tensor_defs::Sign;

/// How many components there are of some digits.
fn row_length(digits: usize) -> usize
    requires { digits ≤ 6 }
    ensures { result ≡ 3 ^ digits }
{
    match digits {
        0 => 1,
        1 => 3,
        2 => 9,
        3 => 27,
        4 => 81,
        5 => 243,
        _ => 729,
    }
}

/// The part of one digit more: the sum of the numbers, and the product of the signs.
fn joined_step(step: Step, part: Step) -> Step
    requires { step.to + part.to < 65536 }
    ensures { result ≡ joined_step step part }
{
    Step {
        to: step.to + part.to,
        sign: times(step.sign, part.sign),
    }
}

/// Appends what a step becomes with one index digit more.
fn push_longer(step: Step, part: [Step; 3], longer: &mut Vec<Step>)
    requires room { vec_len longer.old + 3 ≤ vec_capacity longer.old }
    requires small { (d : ℕ) → d < 3 → step.to + (step_at part d).to < 65536 }
    ensures spread { (steps : ℕ → Step) (count : ℕ) → steps count ≡ step → IsSpread steps count part longer.old.items → IsSpread steps (count + 1) part longer.new.items }
    ensures len { vec_len longer.new ≡ vec_len longer.old + 3 }
    ensures capacity { vec_capacity longer.new ≡ vec_capacity longer.old }
{
    longer.push_reserved(joined_step(step, part[0]));
    longer.push_reserved(joined_step(step, part[1]));
    longer.push_reserved(joined_step(step, part[2]));
}

/// The steps of the components with one index digit more, in place of those that a list held.
fn spread(row: &[Step], part: [Step; 3], longer: &mut Vec<Step>)
    requires room { 3 * length row.now ≤ vec_capacity longer.old }
    requires small { (j d : ℕ) → j < length row.now → d < 3 → (step_at row.now j).to + (step_at part d).to < 65536 }
    ensures spread { IsSpread (step_at row.now) (length row.now) part longer.new.items }
    ensures capacity { vec_capacity longer.new ≡ vec_capacity longer.old }
{
    longer.clear();
    for j in 0..row.len() {
        push_longer(row[j], part, longer);
    }
}

/// The steps of the components with two index digits more, in place of those that a list held.
fn spread_twice(row: &[Step], first: [Step; 3], second: [Step; 3], longer: &mut Vec<Step>)
    requires room { 9 * length row.now ≤ vec_capacity longer.old }
    requires small { (j d e : ℕ) → j < length row.now → d < 3 → e < 3 → (step_at row.now j).to + (step_at first d).to + (step_at second e).to < 65536 }
    ensures spread { IsSpread (longer_step row.now first) (3 * length row.now) second longer.new.items }
    ensures capacity { vec_capacity longer.new ≡ vec_capacity longer.old }
{
    longer.clear();
    for j in 0..row.len() {
        let step = row[j];
        push_longer(joined_step(step, first[0]), second, longer);
        push_longer(joined_step(step, first[1]), second, longer);
        push_longer(joined_step(step, first[2]), second, longer);
    }
}

/// The steps of a move that carries each index digit by itself, the first one the most significant: where the parts of
/// the digits together lead, with the product of their signs and of a sign for all.
pub fn digit_row(alloc: Global, parts: &[[Step; 3]], whole: Sign) -> Result<Vec<Step>, NoMemory>
    requires few { length parts.now ≤ 6 }
    requires small { AreParts parts.now }
    ensures { IfOk result (λ row. IsDigitRow parts.now whole (length parts.now) row.items) }
{
    let room = row_length(parts.len());
    let mut row = Vec::with_capacity(alloc, room)?;
    let mut longer = Vec::with_capacity(alloc, room)?;
    row.push(Step { to: 0, sign: whole })?;
    let mut place = 0;
    while place + 1 < parts.len() {
        spread_twice(&row, parts[place], parts[place + 1], &mut longer);
        swap(&mut row, &mut longer);
        place += 2;
    }
    if place < parts.len() {
        spread(&row, parts[place], &mut longer);
        swap(&mut row, &mut longer);
    }
    Ok(row)
}
