// What is printed of a tree file and of a packing.
use super::items::{ITEMS, THINGS};
use super::packing::{load, worth};
use super::programme::{Bag, proven_bound};
use bound::Programme;
use std::alloc::{AllocError, Global};

// The bound that a tree file proves, or why it is refused: number and place.
pub fn verdict(heap: Global, file: &[u8]) -> Result<String, AllocError> {
    match proven_bound(file) {
        Ok(bound) => {
            let most = bound / Bag::SCALE;
            format!(in heap; "bound {bound}, so no packing is worth more than {most}")
        }
        Err(refusal) => format!(in heap; "refused, {refusal}"),
    }
}

// The names of what is packed, its worth and its size.
pub fn contents(heap: Global, packing: &[bool; THINGS]) -> Result<String, AllocError> {
    let mut text = String::new(heap);
    for (named, packed) in ITEMS.iter().zip(packing) {
        if *packed {
            write!(text, "{} ", named.name)?;
        }
    }
    let value = worth(packing);
    let size = load(packing);
    write!(text, "of value {value} and size {size}")?;
    Ok(text)
}
