// A topology: blocks of records.
use crate::pcm::Pcm;
use crate::widget::Widget;
use sof_base::{Items, Name44};
use std::marker::Model;

/// A topology: its blocks in file order.
#[derive(Debug, Drop)]
pub struct Topology {
    pub blocks: Items<Block>,
}

/// A block: three words of its header, and its records. Its payload is below 2^32 bytes.
#[derive(Debug, Drop)]
pub struct Block {
    pub version: u32,
    pub vendor_type: u32,
    pub index: u32,
    pub body: Body,
}

impl Model for Block {
    ghost use Rattle.tplg_model.specs.Spelling.{BlockValue};
    ghost use Rattle.tplg_model.specs.Storable.{IsStorable};

    ghost Value = { BlockValue };

    ghost view = { λ a. record { version = a.version; vendor_type = a.vendor_type; index = a.index; body = a.body } };

    ghost invariant = { λ a. IsStorable a.body };
}

/// The records of a block by its type: 8, 5, 4 and 7, or any other type, whose bytes are kept. `kind` is none of 4, 5, 7
/// and 8.
#[derive(Debug, Drop)]
pub enum Body {
    Manifests(Items<Manifest>),
    Widgets(Items<Widget>),
    Routes(Items<Route>),
    Pcms(Items<Pcm>),
    Other {
        kind: u32,
        count: u32,
        bytes: Items<u8>,
    },
}

/// A route: from the source's widget to the sink's, by name.
#[derive(Debug, Drop)]
pub struct Route {
    pub sink: Name44,
    pub control: Name44,
    pub source: Name44,
}

/// A manifest: 26 words and private bytes.
#[derive(Debug, Drop)]
pub struct Manifest {
    pub words: [u32; 26],
    pub private: Items<u8>,
}
