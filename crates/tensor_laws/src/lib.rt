//! Laws over the definitions of `tensor_defs`, each as the contract of a function with no parameters.
#![tactic(auto)]

ghost use Rattle.tensor_laws.specs.Laws.{ActsInTurn, AtMostOneTable, BlockOrderIsOrder, IdentityActs, IndexOrderIsOrder, NumbersAreIndices, OneProduct, OneStateTensor, ProductsAssociate, RowsDecide, WordsDecide};

/// A product acts as its factors in turn.
pub fn product_acts_in_turn()
    ensures { ActsInTurn }
{}

/// The identity changes nothing.
pub fn identity_acts()
    ensures { IdentityActs }
{}

/// Two operations have at most one product.
pub fn one_product()
    ensures { OneProduct }
{}

/// Products are associative.
pub fn products_associate()
    ensures { ProductsAssociate }
{}

/// Each operation of a domain state carries an invariant list to the same list.
pub fn one_state_tensor()
    ensures { OneStateTensor }
{}

/// At most one table fits.
pub fn one_table_fits()
    ensures { AtMostOneTable }
{}

/// Index order is an order.
pub fn index_order_is_order()
    ensures { IndexOrderIsOrder }
{}

/// A component list is unchanged by the threefold rotation about z exactly where the words of a count not
/// divisible by 3 vanish.
pub fn words_decide()
    ensures { WordsDecide }
{}

/// A component list is unchanged by the threefold rotation about z exactly where the even and odd rows of
/// these words add up to zero on it.
pub fn rows_decide()
    ensures { RowsDecide }
{}

/// Block order is an order.
pub fn block_order_is_order()
    ensures { BlockOrderIsOrder }
{}

/// Numbers and indices of components are inverse to each other.
pub fn numbers_are_indices()
    ensures { NumbersAreIndices }
{}
