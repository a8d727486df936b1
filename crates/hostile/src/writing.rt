// Trees as bytes, written from the format alone: with constants and a writer of its own, so that what the reader takes for a
// kind or a field is tried against what the format says.
ghost use Rattle.std.specs.Prelude.{◌≤◌, length};

use std::alloc::{AllocError, Global};

// The records of a tree: a split's variable; a row and its weight; the close of a leaf.
const SPLIT: u8 = 8;

const ROW: u8 = 9;

const CLOSE: u8 = 10;

// A record of this kind: the map of the fields that are not 0, and those fields.
fn write_record(file: &mut Vec<u8>, kind: u8, fields: &[i64]) -> Result<(), AllocError>
    requires { length fields.now ≤ 16 }
{
    let mut map = 0u16;
    for (bit, field) in fields.iter().enumerate() {
        if *field != 0 {
            map |= 1 << bit;
        }
    }
    file.extend_from_slice(&[kind])?;
    file.extend_from_slice(&map.to_be_bytes())?;
    for field in fields {
        if *field != 0 {
            file.extend_from_slice(&field.to_be_bytes())?;
        }
    }
    Ok(())
}

pub fn split(file: &mut Vec<u8>, variable: u8) -> Result<(), AllocError> {
    write_record(file, SPLIT, &[i64::from(variable)])
}

pub fn weigh(file: &mut Vec<u8>, row: u8, weight: i64) -> Result<(), AllocError> {
    write_record(file, ROW, &[i64::from(row), weight])
}

pub fn close(file: &mut Vec<u8>) -> Result<(), AllocError> {
    write_record(file, CLOSE, &[])
}

// A path of this many splits, each with a leaf on its 0 side, and a leaf at its end. A split's number is the variable that is
// written.
pub fn comb(heap: Global, depth: u8) -> Result<Vec<u8>, AllocError> {
    let mut file = Vec::new(heap);
    for variable in 0..depth {
        split(&mut file, variable)?;
        close(&mut file)?;
    }
    close(&mut file)?;
    Ok(file)
}

// How many splits are on each path of a full tree.
const DEPTH: u8 = 12;

// All the splits below this depth of a full tree.
fn grow(file: &mut Vec<u8>, depth: u8) -> Result<(), AllocError> {
    if depth >= DEPTH {
        return close(file);
    }
    split(file, depth)?;
    grow(file, depth + 1)?;
    grow(file, depth + 1)
}

// A tree of 4,096 leaves.
pub fn full(heap: Global) -> Result<Vec<u8>, AllocError> {
    let mut file = Vec::new(heap);
    grow(&mut file, 0)?;
    Ok(file)
}

// One leaf with these weights.
pub fn leaf(heap: Global, weights: &[(u8, i64)]) -> Result<Vec<u8>, AllocError> {
    let mut file = Vec::new(heap);
    for (row, weight) in weights {
        weigh(&mut file, *row, *weight)?;
    }
    close(&mut file)?;
    Ok(file)
}

// A file of zeros.
pub fn zeros(heap: Global, length: usize) -> Result<Vec<u8>, AllocError> {
    vec![in heap; 0u8; length]
}
