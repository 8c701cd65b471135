//! The parts of a form, each of which is 0 everywhere where it is 0 on the grid.

ghost use Rattle.std.specs.Prelude.{length};
ghost use Rattle.geo_degree.specs.Questions.{IsClear, IsZeroEverywhere, pairs as pairs_of, part};
ghost use Rattle.geo_degree.proofs.QuestionLaws.{pairs_apart as are_apart};

use geo_grid::Form;
use geo_law::{PairQuantity, Quantity, zero_on_triangles};

/// One part of a form, as a quantity of the values of its axes.
#[derive(Clone, Copy)]
struct Part<'a, F> {
    form: &'a F,
    number: usize,
}

impl<'a, F: Form> Quantity for Part<'a, F> {
    ghost variables = { λ p. length (F.question p.form.now).axes };

    ghost value = { λ p xs. part (F.question p.form.now) p.number xs };

    ghost coefficients = { λ p xs place. (F.question p.form.now).coefficients xs p.number place };

    ghost agrees = { λ p xs place x l m. (F.is_form p.form.now).agrees xs p.number place x l m };
}

impl<'a, F: Form> PairQuantity for Part<'a, F> {
    ghost pairs = { λ p. pairs_of (F.question p.form.now) };

    ghost table = { λ p xs pair. (F.question p.form.now).table xs p.number pair };

    ghost pairs_apart = { λ p. are_apart (F.question p.form.now) (F.is_form p.form.now) };

    ghost pairs_agree = { λ p xs pair x y l c. (F.is_form p.form.now).pairs_agree xs p.number pair x y l c };
}

/// A form whose parts are 0 at every grid point is 0 at all whole-number values of its
/// axes: in the two axes of a triangle a part has at most the total degree of the triangle,
/// and each other axis has more values than a part has degree in it.
pub(crate) fn zero_everywhere<F: Form>(form: &F)
    requires { IsClear (F.question form.now) }
    ensures { IsZeroEverywhere (F.question form.now) }
{
    let count = form.parts();
    for number in 0..count {
        zero_on_triangles(&Part { form, number });
    }
}
