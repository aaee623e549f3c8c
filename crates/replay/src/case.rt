// A case: a graph, its views, the image that it packs into, and the walk that its questions share.
use crate::walks::Walk;
use anyhow::anyhow;
use model::Kind;
use std::alloc::{AllocError, Global};
use support::pack;

#[derive(Drop)]
pub enum View {
    Reversed,
    Nodes(Vec<u8>),
    Edges(Vec<u8>),
}

// Characters 0 and 1 as bits, the lowest bit of byte 0 first.
pub fn pack_bits(heap: Global, text: &str) -> Result<Vec<u8>, AllocError> {
    let mut bytes = Vec::new(heap);
    for chunk in text.as_bytes().chunks(8) {
        let byte = chunk
            .iter()
            .rev()
            .fold(0u8, |bits, c| bits << 1 | u8::from(*c == b'1'));
        bytes.push(byte)?;
    }
    Ok(bytes)
}

impl View {
    // No `FromStr`: it makes memory.
    pub fn read(heap: Global, kind: Option<&str>, bits: Option<&str>) -> anyhow::Result<View> {
        let text = bits.unwrap_or("");
        match kind {
            Some("rev") => Ok(View::Reversed),
            Some("nodes") => Ok(View::Nodes(pack_bits(heap, text)?)),
            Some("edges") => Ok(View::Edges(pack_bits(heap, text)?)),
            _ => Err(anyhow!("an unknown view")),
        }
    }
}

#[derive(Drop)]
pub struct Case {
    pub kind: Kind,
    pub nodes: u32,
    pub edges: Vec<(u32, u32)>,
    pub views: Vec<View>,
    // There from the case's first call on a walk on.
    pub walk: Option<Walk>,
}

impl Case {
    pub fn new(heap: Global) -> Case {
        Case {
            kind: Kind::OneWay,
            nodes: 0,
            edges: Vec::new(heap),
            views: Vec::new(heap),
            walk: None,
        }
    }

    pub fn pack(&self, heap: Global) -> Result<Vec<u8>, AllocError> {
        pack(heap, self.kind, self.nodes, self.edges.as_slice())
    }
}
