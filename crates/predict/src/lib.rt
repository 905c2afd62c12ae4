// The predictors for integer data, a row at a time and in place: residuals become cells. A number is passed as the u32 of its bits.
#![tactic(auto)]

ghost use Rattle.std.specs.Prelude.{◌≡◌};
ghost use Rattle.predict.specs.Predict.{plus, minus, predicted, row_of};

// Two numbers added and one taken away.
fn sum_less(a: u32, b: u32, c: u32) -> u32
    ensures { result ≡ minus (plus a b) c }
{
    let sum = std::num::wrapping_add_u32(a, b);
    std::num::wrapping_sub_u32(sum, c)
}

// What a predictor says of the cell in column i.
fn predicted(p: u32, above: &[u32], i: usize, left: u32, second: u32) -> u32
    ensures { result ≡ predicted p above.now i left second }
{
    if i == 0 {
        return wire::number_in(above, 0);
    }
    if p == 0 {
        return left;
    }
    if p == 1 {
        if i == 1 {
            return left;
        }
        return sum_less(left, left, second);
    }
    let up = wire::number_in(above, i);
    let corner = wire::number_in(above, i - 1);
    sum_less(left, up, corner)
}

// A cell: what is predicted, and its residual added.
fn corrected(p: u32, above: &[u32], i: usize, left: u32, second: u32, d: u32) -> u32
    ensures { result ≡ plus (predicted p above.now i left second) d }
{
    let guess = predicted(p, above, i, left, second);
    std::num::wrapping_add_u32(guess, d)
}

// The cells of a row in the place of its residuals, from the row above.
pub fn predict_row(p: u32, above: &[u32], row: &mut [u32])
    ensures { row.new ≡ row_of p above.now row.old }
{
    let mut left = 0;
    let mut second = 0;
    for (i, cell) in row.iter_mut().enumerate() {
        *cell = corrected(p, above, i, left, second, *cell);
        second = left;
        left = *cell;
    }
}
