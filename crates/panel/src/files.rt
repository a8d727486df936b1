// The files that a past is made of.
use anyhow::anyhow;
use std::fs;
use std::io::ErrorKind;

#[derive(Drop)]
pub struct Files {
    pub market: Vec<u8>,
    pub clearing: Vec<u8>,
    pub tree: Vec<u8>,
    pub price: Vec<u8>,
}

// The bytes of a file; one that is missing is empty.
fn read_file(rt: &HostRuntime, name: &str) -> anyhow::Result<Vec<u8>> {
    match fs::read(rt, name) {
        Ok(bytes) => Ok(bytes),
        Err(e) if e.kind() == ErrorKind::NotFound => Ok(Vec::new(rt.alloc())),
        Err(e) => Err(anyhow!("{name} cannot be read: {e}")),
    }
}

impl Files {
    pub fn read(rt: &HostRuntime) -> anyhow::Result<Files> {
        Ok(Files {
            market: read_file(rt, "market.bin")?,
            clearing: read_file(rt, "clearing.bin")?,
            tree: read_file(rt, "tree.bin")?,
            price: read_file(rt, "price.bin")?,
        })
    }
}
