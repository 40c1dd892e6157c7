ghost use Rattle.std.specs.Prelude.{◌≡◌, ◌≢◌, ◌<◌, ℤ, List, pos, ◌*ℤ◌, ◌≤ℤ◌, length, All, IfSome, IsNone, slice_set};
ghost use Rattle.bern_base.specs.Affine.{IsWithin, IsAffine, IsPoint, IsSpan, IsInSpan, IsLeastIn, IsGreatestIn, IsInBox, IsReached, IsBetween, number_of, term, value_at};

use std::marker::Model;

/// A form `c0 + coef[0] * x0 + .. + coef[3] * x3` over the loop variables of a nest.
///
/// Each coefficient is at most 2^21 in size, and `c0` at most 2^32. A variable that a nest does not have has the
/// coefficient 0.
#[derive(Clone, Copy, Debug, PartialEq, Eq)]
pub struct Affine {
    c0: i64,
    coef: [i64; 4],
}

impl Model for Affine {
    ghost use Rattle.bern_base.specs.Affine.{AffineForm, IsAffine};

    ghost Value = { AffineForm };

    ghost view = { λ a. record { c0 = a.c0; coef = a.coef } };

    ghost invariant = { λ a. IsAffine (record { c0 = a.c0; coef = a.coef }) };

    ghost inverse = { λ f. record { c0 = f.c0; coef = f.coef } };
}

impl Affine {
    /// The form with these two fields, which are within its bounds.
    pub fn new(c0: i64, coef: [i64; 4]) -> Affine
        requires { IsAffine (record { c0 = c0; coef = coef }) }
        ensures { result ≡ record { c0 = c0; coef = coef } }
    {
        Affine { c0, coef }
    }

    /// The constant.
    pub fn constant(&self) -> i64
        ensures { result ≡ self.now.c0 }
    {
        self.c0
    }

    /// The factor of each loop variable.
    pub fn coefficients(&self) -> &[i64; 4]
        ensures { result.now ≡ self.now.coef }
    {
        &self.coef
    }

    /// The factor of one variable.
    fn factor(&self, var: usize) -> i64
        requires { var < 4 }
        ensures factor { result ≡ number_of self.now.coef var }
        ensures within { IsWithin 2097151 result }
    {
        self.coef[var]
    }

    /// What one variable adds at a point.
    fn term(&self, point: &Point, var: usize) -> i64
        requires { var < 4 }
        ensures term { result ≡ term self.now point.now var }
        ensures four { length point.now ≡ 4 }
        ensures within { IsWithin 8796093022207 result }
    {
        self.factor(var) * point.value(var)
    }

    /// The value at a point: the constant, and for each variable its factor times its value. It is at most
    /// 2^45 + 2^32 in size.
    pub fn eval(&self, point: &Point) -> i64
        ensures value { result ≡ value_at self.now point.now }
        ensures within { IsWithin 35188667056127 result }
    {
        self.c0
            + self.term(point, 0)
            + self.term(point, 1)
            + self.term(point, 2)
            + self.term(point, 3)
    }

    /// The least and the greatest value over a box.
    ///
    /// The box has a span `(lo, hi)` for each variable, of the values from `lo` to `hi - 1`. A variable that a nest
    /// does not have has the span `(0, 1)`.
    pub fn range(&self, spans: &[(i64, i64); 4]) -> (i64, i64)
        requires { All IsSpan spans.now }
        ensures least { IsReached self.now spans.now result.0 }
        ensures greatest { IsReached self.now spans.now result.1 }
        ensures between { IsBetween self.now spans.now result }
    {
        (
            self.eval(&self.least_point(spans)),
            self.eval(&self.greatest_point(spans)),
        )
    }

    /// A point of the box with the least value.
    fn least_point(&self, spans: &[(i64, i64); 4]) -> Point
        requires { All IsSpan spans.now }
        ensures inside { IsInBox spans.now result }
        ensures least { (values : List ℤ) → IsInBox spans.now values → value_at self.now result ≤ℤ value_at self.now values }
    {
        Point::new([
            least_end(self.factor(0), spans[0]),
            least_end(self.factor(1), spans[1]),
            least_end(self.factor(2), spans[2]),
            least_end(self.factor(3), spans[3]),
        ])
    }

    /// A point of the box with the greatest value.
    fn greatest_point(&self, spans: &[(i64, i64); 4]) -> Point
        requires { All IsSpan spans.now }
        ensures inside { IsInBox spans.now result }
        ensures greatest { (values : List ℤ) → IsInBox spans.now values → value_at self.now values ≤ℤ value_at self.now result }
    {
        Point::new([
            greatest_end(self.factor(0), spans[0]),
            greatest_end(self.factor(1), spans[1]),
            greatest_end(self.factor(2), spans[2]),
            greatest_end(self.factor(3), spans[3]),
        ])
    }

    /// The value of one variable at which the form is `index`, the others being as in `point`. Its factor is not 0,
    /// and `index` is at most 2^45 in size.
    ///
    /// The answer may lie outside the bounds of a point. `None` comes where no whole number fits.
    pub fn solve(&self, var: u32, point: &Point, index: i64) -> Option<i64>
        requires var { var < 4 }
        requires factor { number_of self.now.coef var ≢ pos 0 }
        requires index { IsWithin 35184372088831 index }
        ensures some { IfSome result (λ x. value_at self.now (slice_set point.now var x) ≡ index) }
        ensures none { IsNone result → (x : ℤ) → value_at self.now (slice_set point.now var x) ≢ index }
    {
        let var = var as usize;
        let others = self.eval(point) - self.term(point, var);
        quotient(index - others, self.factor(var))
    }
}

/// The value of a span at which the factor times it is least.
fn least_end(factor: i64, span: (i64, i64)) -> i64
    requires { IsSpan span }
    ensures inside { IsInSpan span result }
    ensures least { IsLeastIn span factor result }
    ensures within { IsWithin 4194303 result }
{
    if factor < 0 { span.1 - 1 } else { span.0 }
}

/// The value of a span at which the factor times it is greatest.
fn greatest_end(factor: i64, span: (i64, i64)) -> i64
    requires { IsSpan span }
    ensures inside { IsInSpan span result }
    ensures greatest { IsGreatestIn span factor result }
    ensures within { IsWithin 4194303 result }
{
    if factor < 0 { span.0 } else { span.1 - 1 }
}

/// The whole number by which the factor gives the product, if there is one.
fn quotient(product: i64, factor: i64) -> Option<i64>
    requires factor { factor ≢ pos 0 }
    requires product { IsWithin 79169132167167 product }
    ensures some { IfSome result (λ x. factor *ℤ x ≡ product) }
    ensures none { IsNone result → (x : ℤ) → factor *ℤ x ≢ product }
{
    if product % factor != 0 {
        return None;
    }
    Some(product / factor)
}

/// The values of the loop variables of a nest, each at most 4,194,304 in size. One that the nest does not have is 0.
#[derive(Clone, Copy, Debug, PartialEq, Eq)]
pub struct Point {
    values: [i64; 4],
}

impl Model for Point {
    ghost use Rattle.std.specs.Prelude.{List, ℤ};
    ghost use Rattle.bern_base.specs.Affine.{IsPoint};

    ghost Value = { List ℤ };

    ghost view = { λ p. p.values };

    ghost invariant = { λ p. IsPoint p.values };

    ghost inverse = { λ p. record { values = p } };
}

impl Point {
    /// The point with these values, which are within its bounds.
    pub fn new(values: [i64; 4]) -> Point
        requires { IsPoint values }
        ensures { result ≡ values }
    {
        Point { values }
    }

    /// The value of each loop variable.
    pub fn values(&self) -> &[i64; 4]
        ensures { result.now ≡ self.now }
    {
        &self.values
    }

    /// The value of one variable.
    fn value(&self, var: usize) -> i64
        requires { var < 4 }
        ensures value { result ≡ number_of self.now var }
        ensures four { length self.now ≡ 4 }
        ensures within { IsWithin 4194303 result }
    {
        self.values[var]
    }
}
