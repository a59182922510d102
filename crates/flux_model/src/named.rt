//! A program with the places of its names in its text.

use crate::programs::Program;
use flux_values::List;

/// Places of names, in bytes from 0.
pub struct Sites {
    /// Of each node, its name in its first naming line.
    pub nodes: List<u32>,
    /// Of each source line, its target.
    pub targets: List<u32>,
    /// Of each source line, its source.
    pub sources: List<u32>,
    /// Of the handlers, node by node.
    pub handlers: List<u32>,
}

impl Drop for Sites {
    fn drop(self) {
        let Sites {
            nodes,
            targets,
            sources,
            handlers,
        } = self;
    }
}

/// A program, and where its names are.
#[derive(Drop)]
pub struct Named {
    pub program: Program,
    pub sites: Sites,
}
