//! The variables of a search.

use crate::lit::Lit;
use ps_formula::Node;
use std::alloc::{AllocError, Global};

/// The literal of each node that may count, and of each atom.
#[derive(Drop)]
pub(crate) struct Variables {
    nodes: Vec<Option<Lit>>,
    atoms: Vec<Option<u32>>,
}

impl Variables {
    /// None of so many atoms has a variable.
    pub(crate) fn new(alloc: Global, atoms: u16) -> Result<Variables, AllocError> {
        Ok(Variables {
            nodes: Vec::new(alloc),
            atoms: vec![in alloc; None; atoms as usize]?,
        })
    }

    /// Takes in the next node, which has this number.
    pub(crate) fn add(
        &mut self,
        number: u32,
        node: Node,
        lit: Option<Lit>,
    ) -> Result<(), AllocError> {
        if let Node::Atom(atom) = node {
            if let Some(place) = self.atoms.get_mut(atom as usize) {
                *place = Some(number);
            }
        }
        self.nodes.push(lit)?;
        Ok(())
    }

    /// The literal of a node, where it has one.
    pub(crate) fn lit(&self, node: u32) -> Option<Lit> {
        self.nodes.get(node as usize).copied().flatten()
    }

    /// The variable of each atom, where it has one.
    pub(crate) fn atoms(&self) -> &[Option<u32>] {
        &self.atoms
    }

    /// The variables of the atoms.
    pub(crate) fn list(&self, alloc: Global) -> Result<Vec<u32>, AllocError> {
        let mut list = Vec::new(alloc);
        for atom in &self.atoms {
            if let Some(variable) = atom {
                list.push(*variable)?;
            }
        }
        Ok(list)
    }
}
