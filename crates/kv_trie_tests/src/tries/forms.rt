//! The forms of some maps.

use super::*;

// A node without its children.
#[derive(Clone, Copy, Drop)]
enum Part {
    Leaf(&'static str),
    // By the bit of each index that has a child.
    Branch(u32),
    Pairs(&'static str, &'static str),
}

fn is_empty(node: &Node<Key, u32>) -> bool {
    matches!(node, Node::Empty)
}

fn is_leaf(node: &Node<Key, u32>, text: &str) -> bool {
    match node {
        Node::Leaf(pair) => pair.0.as_str() == text,
        _ => false,
    }
}

fn are_pairs(node: &Node<Key, u32>, first: &str, second: &str) -> bool {
    match node {
        Node::List(pairs) => {
            pairs.len() == 2 && pairs[0].0.as_str() == first && pairs[1].0.as_str() == second
        }
        _ => false,
    }
}

// The bit of an index.
fn bit_of(index: u8) -> u32 {
    1u32.checked_shl(u32::from(index)).unwrap_or(0)
}

// Where the parts of a node end that begin at a place, each node before its children, if the node has these parts.
fn end_of(node: &Node<Key, u32>, parts: &[Part], at: usize) -> Option<usize> {
    match parts.get(at) {
        Some(Part::Leaf(text)) => is_leaf(node, text).then_some(at + 1),
        Some(Part::Pairs(first, second)) => are_pairs(node, first, second).then_some(at + 1),
        Some(Part::Branch(map)) => match node {
            Node::Branch(children) => {
                let mut end = at + 1;
                for (index, child) in children.value.iter().enumerate() {
                    if (*map >> index) & 1 == 1 {
                        match end_of(child, parts, end) {
                            Some(after) => end = after,
                            None => return None,
                        }
                    } else if !is_empty(child) {
                        return None;
                    }
                }
                Some(end)
            }
            Node::Few(few) => {
                let mut end = at + 1;
                let mut met = 0;
                for (spot, child) in few.children.iter().enumerate() {
                    if !is_empty(child) {
                        met |= bit_of(few.indices[spot]);
                        match end_of(child, parts, end) {
                            Some(after) => end = after,
                            None => return None,
                        }
                    }
                }
                (met == *map).then_some(end)
            }
            _ => None,
        },
        None => None,
    }
}

// Whether a trie has these nodes and no other.
fn has_form(trie: &Trie<Key, u32>, parts: &[Part]) -> bool {
    let root = trie.root();
    if parts.is_empty() {
        return is_empty(root);
    }
    end_of(root, parts, 0) == Some(parts.len())
}

// The trie of these keys has these nodes, and no other.
fn is_of(
    rt: &impl Abort,
    alloc: Global,
    pairs: &[(&str, u32)],
    parts: &[Part],
) -> Result<(), KvError> {
    let trie = built(alloc, pairs)?;
    assert!(rt; has_form(&trie, parts));
    Ok(())
}

const THREE_PLACES: &[Part] = &[
    Part::Branch(0x0040_1100),
    Part::Leaf("foobar"),
    Part::Leaf("a"),
    Part::Leaf("altarage"),
];

const ONE_PLACE: &[Part] = &[
    Part::Branch(1 << 22),
    Part::Branch(1 << 5),
    Part::Branch(1 << 22),
    Part::Branch(1 << 1),
    Part::Branch(1 << 6),
    Part::Branch(1 << 18),
    Part::Branch(1 << 3),
    Part::Pairs("altarage", "zinke"),
];

#[test]
fn a_trie_has_the_form_of_its_places(rt: HostRuntime) -> Result<(), Fail> {
    let alloc = rt.alloc();
    is_of(&rt, alloc, &[], &[])?;
    is_of(&rt, alloc, &[("a", 1)], &[Part::Leaf("a")])?;
    is_of(
        &rt,
        alloc,
        &[("a", 1), ("foobar", 2), ("altarage", 3)],
        THREE_PLACES,
    )?;
    is_of(&rt, alloc, &[("zinke", 1), ("altarage", 2)], ONE_PLACE)?;
    Ok(())
}

// Where one of two keys of one place goes, the seven branches above them go too, and what is left is a leaf. A refusal leaves
// the trie as it was.
#[test]
fn branches_over_one_pair_contract_to_a_leaf(rt: HostRuntime) -> Result<(), Fail> {
    let both = built(rt.alloc(), &[("altarage", 1), ("zinke", 2)])?;
    assert!(rt; has_form(&both, ONE_PLACE));
    let rest = once_more!(
        removed(rt.alloc(), &both, "zinke"),
        equal(&rt, has_form(&both, ONE_PLACE), true)
    )?;
    assert!(rt; has_form(&rest, &[Part::Leaf("altarage")]));
    assert!(rt; has_form(&both, ONE_PLACE));
    Ok(())
}
