//! Environments: the values of variables in a macro step.

ghost use Rattle.std.specs.Prelude.{◌≡◌};
ghost use Rattle.quartz_expr.specs.Values.{element_at, elements_in};

use sqlite_items::Items;

/// An environment: by variable, the values of its elements.
#[derive(Debug, Drop)]
pub struct Env {
    pub values: Items<Items<i64>>,
}

impl Env {
    fn elements(&self, var: u32) -> &[i64]
        ensures { result.now ≡ elements_in self.now.values var }
    {
        match self.values.get(var as usize) {
            Some(elements) => elements.as_slice(),
            None => &[],
        }
    }

    /// The element with that index, or 0 where there is none.
    pub fn element(&self, var: u32, index: i64) -> i64
        ensures { result ≡ element_at (elements_in self.now.values var) index }
    {
        element_of(self.elements(var), index)
    }
}

fn element_of(elements: &[i64], index: i64) -> i64
    ensures { result ≡ element_at elements.now index }
{
    if index < 0 {
        return 0;
    }
    elements.get(index as usize).copied().unwrap_or(0)
}
