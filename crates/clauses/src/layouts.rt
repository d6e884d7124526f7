// What the output clauses of an upright sheet have: every refusal in its order.
// x and m stay two numbers: `cell_tests` says why.
ghost use Rattle.std.specs.Prelude.{◌≡◌, ◌+◌, ◌≤◌};
ghost use Rattle.cells.specs.Slices.{plane_of};
ghost use Rattle.clauses.specs.layouts.Layouts.{one_layout, named_layout, labelled_layout, many_layout, layout_of};

use cells::plane::Plane;
use model::Refusal;

// What the output clauses have.
// Three facts of the sheet: no value hangs on them.
#[derive(Clone, Copy)]
pub struct Layout {
    pub labelled: bool,
    pub named: bool,
    pub valued: bool,
}

// One output, in column x, under h clause rows.
fn lay_one(plane: Plane, x: usize, h: usize) -> Result<Layout, Refusal>
    ensures { result ≡ one_layout (plane_of plane.entry) x h }
{
    if h == 1 {
        crate::cell_tests::region_at(plane, 0, x)?;
        return Ok(Layout {
            labelled: true,
            named: false,
            valued: false,
        });
    }
    if h == 2 {
        let labelled = crate::cell_tests::column_is(plane, false, 0, x)?;
        return Ok(Layout {
            labelled,
            named: false,
            valued: true,
        });
    }
    Err(Refusal::TooManyOutputRows)
}

// `valued` is a fact of the sheet, which the answer holds too.
// Component names in row 0 and, if valued, allowed values in row 1.
fn lay_named(plane: Plane, x: usize, m: usize, valued: bool) -> Result<Layout, Refusal>
    requires { x + m ≤ 128 }
    ensures { result ≡ named_layout (plane_of plane.entry) x m valued }
{
    crate::passes::pass_row(plane, 0, x, m)?;
    if valued {
        crate::passes::pass_row(plane, 1, x, m)?;
    }
    Ok(Layout {
        labelled: false,
        named: true,
        valued,
    })
}

// Not one function with `lay_named`: what they share is two calls, and each is its own layout in specs/.
// A label in row 0, component names in row 1 and, if valued, allowed values in row 2.
fn lay_labelled(plane: Plane, x: usize, m: usize, valued: bool) -> Result<Layout, Refusal>
    requires { x + m ≤ 128 }
    ensures { result ≡ labelled_layout (plane_of plane.entry) x m valued }
{
    crate::cell_tests::region_at(plane, 0, x)?;
    crate::passes::pass_row(plane, 1, x, m)?;
    if valued {
        crate::passes::pass_row(plane, 2, x, m)?;
    }
    Ok(Layout {
        labelled: true,
        named: true,
        valued,
    })
}

// m outputs from column x on, under h clause rows.
fn lay_many(plane: Plane, x: usize, m: usize, h: usize, valued: bool) -> Result<Layout, Refusal>
    requires { x + m ≤ 128 }
    ensures { result ≡ many_layout (plane_of plane.entry) x m h valued }
{
    if h == 1 {
        return lay_named(plane, x, m, false);
    }
    if h == 2 {
        if valued {
            return lay_named(plane, x, m, true);
        }
        return lay_labelled(plane, x, m, false);
    }
    lay_labelled(plane, x, m, true)
}

// The output clauses.
pub(crate) fn lay_out(
    plane: Plane,
    x: usize,
    m: usize,
    h: usize,
    valued: bool,
) -> Result<Layout, Refusal>
    requires { x + m ≤ 128 }
    ensures { result ≡ layout_of (plane_of plane.entry) x m h valued }
{
    if m == 0 {
        return Err(Refusal::NoOutputClause);
    }
    if m == 1 {
        return lay_one(plane, x, h);
    }
    lay_many(plane, x, m, h, valued)
}
