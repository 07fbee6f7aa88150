//! Laws of the entries of a trie, in the trie's own order, and of its branches.

ghost use Rattle.std.specs.Prelude.{◌≡◌, ℕ, suc, List, Some};
ghost use Rattle.std.specs.BTreeMap.{is_at};
ghost use Rattle.std.specs.List.{AllZip};
ghost use Rattle.std.specs.Map.{lookup};
ghost use Rattle.std.specs.declared.cmp.Ordering.TheVariants.{Equal};
ghost use Rattle.kv_trie.specs.Canonical.{form, IsBranchOf};
ghost use Rattle.kv_trie.specs.Form.{Slots, branch, Ascends, order};
ghost use Rattle.kv_trie.specs.Same.{HaveOneEntry};

use kv_keys::Place;

/// Entries in the trie's own order are a function of the map: where two lists of entries have the same value at
/// each key, they have equal keys and the same values at each place.
pub fn one_map_has_one_list<K: Place, V>()
    ensures { (xs ys : List (K × V)) →
        Ascends (order K.cmp K.place_of 7) xs → Ascends (order K.cmp K.place_of 7) ys →
        ((q : K) → lookup (is_at (K.cmp q)) xs ≡ lookup (is_at (K.cmp q)) ys) →
        AllZip (HaveOneEntry K.cmp) xs ys }
{}

/// Where only one key is equal to a key, they are one list.
pub fn one_map_is_one_list<K: Place, V>()
    ensures { ((a b : K) → K.cmp a b ≡ Equal → a ≡ b) → (xs ys : List (K × V)) →
        Ascends (order K.cmp K.place_of 7) xs → Ascends (order K.cmp K.place_of 7) ys →
        ((q : K) → lookup (is_at (K.cmp q)) xs ≡ lookup (is_at (K.cmp q)) ys) →
        xs ≡ ys }
{}

/// The form of a branch: a map of 32 bits, with bit i set exactly where some pair has index i, and one child for each set
/// bit, in the order of the bits. The child of bit i is the form of the pairs with index i, and stands at the position that
/// is the count of set bits below i.
pub fn branch_is_map_and_children<K: Place, V>()
    ensures { (left : ℕ) (pairs : List (K × V)) (slots : Slots (K × V)) →
        form K.place_of (suc left) pairs ≡ Some (branch slots) →
        IsBranchOf K.place_of left pairs slots }
{}
