// A market of ninety baskets, one a unit, and a clearing that accepts all of them.
use std::alloc::Global;

// 900 MW of DCL wanted at 9,000 in one Response window.
const WANTED: &[u8] =
    b"\x01\x00\x05\x00\x00\x00\x01\x00\x00\x00\x08\x02\x00\x0c\x00\x00\x03\x84\x00\x00\x23\x28";

// The unit n of 1 to 90 offers 10 MW at 990 + 10 × n.
pub fn ninety_offers(heap: Global) -> anyhow::Result<Vec<u8>> {
    let mut file = Vec::new(heap);
    file.extend_from_slice(WANTED)?;
    for unit in 1u32..=90 {
        file.extend_from_slice(b"\x03\x02\x09")?;
        file.extend_from_slice(&unit.to_be_bytes())?;
        file.extend_from_slice(&10u32.to_be_bytes())?;
        file.extend_from_slice(&(990 + 10 * unit).to_be_bytes())?;
    }
    Ok(file)
}

// The buy and every parent in full, at the dearest unit's price, 1,890.
pub fn ninety_accepted(heap: Global) -> anyhow::Result<Vec<u8>> {
    let mut file = Vec::new(heap);
    file.extend_from_slice(b"\x06\x00\x02\x00\x00\x27\x10")?;
    for variable in 64u32..=153 {
        file.extend_from_slice(b"\x06\x00\x03")?;
        file.extend_from_slice(&variable.to_be_bytes())?;
        file.extend_from_slice(&10_000u32.to_be_bytes())?;
    }
    file.extend_from_slice(b"\x07\x00\x02\x00\x00\x07\x62")?;
    Ok(file)
}

// The balance of line 0 at a weight of 18,900,000.
pub const BALANCED: &[u8] = b"\x09\x00\x02\x00\x00\x00\x00\x01\x20\x64\x20\x0a\x00\x00";

// The surplus of the dearest unit's basket, row 96 + 89, at a weight of 90,000.
pub const DEAREST: &[u8] =
    b"\x09\x00\x03\x00\x00\x00\x00\x00\x00\x00\xb9\x00\x00\x00\x00\x00\x01\x5f\x90\x0a\x00\x00";
