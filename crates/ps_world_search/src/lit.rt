//! Literals.

/// A variable, or its opposite. Variables are numbered from 0 on.
#[derive(Clone, Copy, PartialEq, Eq, Debug)]
pub(crate) struct Lit {
    code: u32,
}

impl Lit {
    /// The literal of a variable that is true where the variable has this value.
    pub(crate) fn new(variable: u32, value: bool) -> Lit {
        let code = variable.wrapping_mul(2);
        Lit {
            code: if value { code } else { code.wrapping_add(1) },
        }
    }

    /// The literal that is true where this one is false.
    pub(crate) fn opposite(self) -> Lit {
        Lit {
            code: self.code ^ 1,
        }
    }

    /// This literal, or its opposite.
    pub(crate) fn where_it_is(self, value: bool) -> Lit {
        if value { self } else { self.opposite() }
    }

    /// The value of its variable that makes it true.
    pub(crate) fn value_wanted(self) -> bool {
        self.code & 1 == 0
    }

    /// Its variable.
    pub(crate) fn variable(self) -> usize {
        (self.code >> 1) as usize
    }

    /// Its place in a list that has one for each literal.
    pub(crate) fn place(self) -> usize {
        self.code as usize
    }
}
