//! Symbols of the 122 types of magnetic point group with the orders of their groups, and of eight kinds of tensor: what
//! tests and generated requests draw from. Source: International Tables for Crystallography D 1.1.
#![tactic(auto)]

ghost use Rattle.std.specs.Prelude.{◌≡◌, ◌↔◌, ◌-◌, ◌<◌, ◌≤◌, IfSome, IsSome, slice_index, slice_index_or, []};
ghost use Rattle.tensor_vectors.specs.Types.{type_symbols, type_orders, jahn_symbols};

#[cfg(test)]
mod tests;

/// The symbol of a type of magnetic point group, by its number from 1 to 122.
pub fn symbol_row(number: usize) -> Option<&'static str>
    ensures row { IfSome result (λ s. s.now ≡ slice_index_or type_symbols (number - 1) []) }
    ensures inside { IsSome result ↔ ((1 ≤ number) × (number ≤ 122)) }
{
    if number < 1 || number > 122 {
        return None;
    }
    Some(SYMBOLS[number - 1])
}

/// The order of the group of a type, by its number from 1 to 122.
pub fn order_row(number: usize) -> Option<usize>
    ensures row { IfSome result (λ n. n ≡ slice_index type_orders (number - 1)) }
    ensures inside { IsSome result ↔ ((1 ≤ number) × (number ≤ 122)) }
{
    if number < 1 || number > 122 {
        return None;
    }
    Some(ORDERS[number - 1] as usize)
}

/// The symbol of a kind of tensor, by its number from 0 to 7.
pub fn jahn_row(number: usize) -> Option<&'static str>
    ensures row { IfSome result (λ s. s.now ≡ slice_index_or jahn_symbols number []) }
    ensures inside { IsSome result ↔ (number < 8) }
{
    if number > 7 {
        return None;
    }
    Some(TENSORS[number])
}

/// The symbols of the types, those of one crystal class in a line: without time reversal, grey, then the others.
#[rattlefmt::skip]
static SYMBOLS: [&str; 122] = [
    "1", "11'",
    "-1", "-11'", "-1'",
    "2", "21'", "2'",
    "m", "m1'", "m'",
    "2/m", "2/m1'", "2'/m", "2/m'", "2'/m'",
    "222", "2221'", "2'2'2",
    "mm2", "mm21'", "m'm2'", "m'm'2",
    "mmm", "mmm1'", "m'mm", "m'm'm", "m'm'm'",
    "4", "41'", "4'",
    "-4", "-41'", "-4'",
    "4/m", "4/m1'", "4'/m", "4/m'", "4'/m'",
    "422", "4221'", "4'22'", "42'2'",
    "4mm", "4mm1'", "4'mm'", "4m'm'",
    "-42m", "-42m1'", "-4'2'm", "-4'2m'", "-42'm'",
    "4/mmm", "4/mmm1'", "4/m'mm", "4'/mmm'", "4'/m'mm'", "4/mm'm'", "4/m'm'm'",
    "3", "31'",
    "-3", "-31'", "-3'",
    "32", "321'", "32'",
    "3m", "3m1'", "3m'",
    "-3m", "-3m1'", "-3'm", "-3'm'", "-3m'",
    "6", "61'", "6'",
    "-6", "-61'", "-6'",
    "6/m", "6/m1'", "6'/m", "6/m'", "6'/m'",
    "622", "6221'", "6'22'", "62'2'",
    "6mm", "6mm1'", "6'mm'", "6m'm'",
    "-6m2", "-6m21'", "-6'm'2", "-6'm2'", "-6m'2'",
    "6/mmm", "6/mmm1'", "6/m'mm", "6'/mmm'", "6'/m'mm'", "6/mm'm'", "6/m'm'm'",
    "23", "231'",
    "m-3", "m-31'", "m'-3'",
    "432", "4321'", "4'32'",
    "-43m", "-43m1'", "-4'3m'",
    "m-3m", "m-3m1'", "m'-3'm", "m-3m'", "m'-3'm'",
];

/// The orders of their groups.
#[rattlefmt::skip]
static ORDERS: [u8; 122] = [
    1, 2,
    2, 4, 2,
    2, 4, 2,
    2, 4, 2,
    4, 8, 4, 4, 4,
    4, 8, 4,
    4, 8, 4, 4,
    8, 16, 8, 8, 8,
    4, 8, 4,
    4, 8, 4,
    8, 16, 8, 8, 8,
    8, 16, 8, 8,
    8, 16, 8, 8,
    8, 16, 8, 8, 8,
    16, 32, 16, 16, 16, 16, 16,
    3, 6,
    6, 12, 6,
    6, 12, 6,
    6, 12, 6,
    12, 24, 12, 12, 12,
    6, 12, 6,
    6, 12, 6,
    12, 24, 12, 12, 12,
    12, 24, 12, 12,
    12, 24, 12, 12,
    12, 24, 12, 12, 12,
    24, 48, 24, 24, 24, 24, 24,
    12, 24,
    24, 48, 24,
    24, 48, 24,
    24, 48, 24,
    48, 96, 48, 48, 48,
];

/// The symbols of the tensors.
static TENSORS: [&str; 8] = [
    "V", "[V2]", "aeV", "aeV2", "V[V2]", "{V2}", "[[V2]2]", "e[V2]",
];
