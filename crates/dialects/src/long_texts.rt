//! The long text of a symbol.
ghost use Rattle.std.specs.Prelude.{◌≡◌, ◌↔◌, ◌<◌, Err, IsTrue, IfOk, map};
ghost use Rattle.tensor_defs.specs.Lists.{IsListing};
ghost use Rattle.tensor_defs.specs.OperationOrder.{comes_before};
ghost use Rattle.tensor_defs.specs.Group.{InGroup, IsAccepted};
ghost use Rattle.dialects.specs.LongTexts.{form_at, HasPrimed, ArePieces, IsFormText};
ghost use Rattle.dialects.specs.Tables.{piece_of};

use crate::forms::{Piece, form_at};
use group_symbol::{SymbolTree, setting_text, turned_to};
use magnetic_groups::{Group, GroupFault, build_group};
use op_matrix::generator;
use std::alloc::{AllocError, Global};

/// Whether a symbol isn't grey and its group holds the primed operator of a piece.
fn has_primed(group: &Group, tree: &SymbolTree, piece: &Piece) -> bool
    requires { IsListing comes_before (InGroup tree.now) group.now }
    ensures { IsTrue result ↔ HasPrimed tree.now (piece_of piece.now).operator }
{
    if tree.is_grey() {
        return false;
    }
    match generator(piece.kind, turned_to(tree.setting(), piece.direction), true) {
        Some(primed) => group.has(&primed),
        None => false,
    }
}

/// The pieces in their order, with a prime behind each whose primed operator is in the group.
fn text_of_pieces(
    alloc: Global,
    group: &Group,
    tree: &SymbolTree,
    pieces: &[Piece],
) -> Result<Vec<u8>, AllocError>
    requires { IsListing comes_before (InGroup tree.now) group.now }
    ensures { IfOk result (λ v. ArePieces tree.now (map piece_of pieces.now) v.items) }
{
    let mut text = Vec::new(alloc);
    for piece in pieces {
        text.extend_from_slice(piece.text)?;
        if has_primed(group, tree, piece) {
            text.extend_from_slice(b"'")?;
        }
    }
    Ok(text)
}

/// The long text of a symbol whose parent has the long form at a place. It fails with Primes where the symbol isn't
/// accepted.
pub(crate) fn long_text(
    alloc: Global,
    place: usize,
    tree: &SymbolTree,
) -> Result<Vec<u8>, GroupFault>
    requires listed { place < 8 }
    requires parent { tree.now.parent ≡ (form_at place).parent }
    ensures text { IfOk result (λ v. IsFormText place v.items tree.now) }
    ensures primes { result ≡ Err GroupFault.Primes → ¬ IsAccepted tree.now }
{
    let form = form_at(place);
    let group = build_group(alloc, tree)?;
    let mut text = text_of_pieces(alloc, &group, tree, form.pieces)?;
    text.extend_from_slice(form.ending)?;
    if tree.is_grey() {
        text.extend_from_slice(b"1'")?;
    }
    text.extend_from_slice(setting_text(tree.setting()))?;
    Ok(text)
}
