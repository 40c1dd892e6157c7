ghost use Rattle.std.specs.Prelude.{◌≡◌, Option};
ghost use Rattle.format_model.specs.Grids.{Grid, HasElement, Lists, SameBranches, value_of_element, with_element};

use crate::access::Access;
use bern_base::Val;

/// The elements of a part that is stored whole, by local element number: row * cols + col with the part's own sizes.
///
/// Neither call takes memory.
pub trait Cells: Access {
    /// The part by its elements, where it is stored whole.
    ghost grid: { Self → Option Grid };

    /// The value of an element.
    fn cell(&self, element: u32) -> Val
        requires { HasElement (grid self.now) element }
        ensures { result ≡ value_of_element (grid self.now) element };

    /// Gives an element, and so its leaf, this value. All else stays: the other elements, the sizes, levels and children.
    fn set(&mut self, element: u32, value: Val)
        requires { HasElement (grid self.old) element }
        ensures grid { grid self.new ≡ with_element (grid self.old) element value }
        ensures branches { SameBranches (Self.tree self.old) (Self.tree self.new) };

    /// A part that is stored whole is listed by its elements.
    ghost listed: { (s : Self) → Lists (Self.tree s) (grid s) };
}
