//! Which forms are those of indices.
ghost use Rattle.std.specs.Prelude.{◌≡◌, ◌≤◌, length, int_le, IfOk};
ghost use Rattle.sp_affine.specs.Interval.{least_product, greatest_product};
ghost use Rattle.sp_patterns.specs.Indices.{leaves_out, least_rest, greatest_rest, least_value, greatest_value, is_small, is_index, index_form, IsWithin};

use sp_affine::Form;
use std::alloc::{AllocError, Global};

fn leaves_out(one: bool, coefs: &[i64], ranges: &[Option<(i32, i32)>]) -> bool
    ensures { result ≡ leaves_out one coefs.now ranges.now }
{
    let [c, coefs @ ..] = coefs else {
        return true;
    };
    let [r, ranges @ ..] = ranges else {
        return true;
    };
    if r.is_some() || *c == 0 {
        leaves_out(one, coefs, ranges)
    } else {
        one && *c == 1 && leaves_out(false, coefs, ranges)
    }
}

fn least_product(coef: i64, range: &(i32, i32)) -> i128
    ensures value { result ≡ least_product coef range.now }
    ensures within { IsWithin 1 result }
{
    let end = if coef < 0 { range.1 } else { range.0 };
    i128::from(coef) * i128::from(end)
}

fn greatest_product(coef: i64, range: &(i32, i32)) -> i128
    ensures value { result ≡ greatest_product coef range.now }
    ensures within { IsWithin 1 result }
{
    let end = if coef < 0 { range.0 } else { range.1 };
    i128::from(coef) * i128::from(end)
}

fn least_rest(coefs: &[i64], ranges: &[Option<(i32, i32)>]) -> i128
    requires { length ranges.now ≤ 1024 }
    ensures value { result ≡ least_rest coefs.now ranges.now }
    ensures within { IsWithin (length ranges.now) result }
{
    let [c, coefs @ ..] = coefs else {
        return 0;
    };
    let [r, ranges @ ..] = ranges else {
        return 0;
    };
    let rest = least_rest(coefs, ranges);
    match r {
        Some(range) => least_product(*c, range) + rest,
        None => rest,
    }
}

fn greatest_rest(coefs: &[i64], ranges: &[Option<(i32, i32)>]) -> i128
    requires { length ranges.now ≤ 1024 }
    ensures value { result ≡ greatest_rest coefs.now ranges.now }
    ensures within { IsWithin (length ranges.now) result }
{
    let [c, coefs @ ..] = coefs else {
        return 0;
    };
    let [r, ranges @ ..] = ranges else {
        return 0;
    };
    let rest = greatest_rest(coefs, ranges);
    match r {
        Some(range) => greatest_product(*c, range) + rest,
        None => rest,
    }
}

fn least_value(ranges: &[Option<(i32, i32)>], f: &Form) -> i128
    requires { length ranges.now ≤ 1024 }
    ensures { result ≡ least_value ranges.now f.now }
{
    least_rest(&f.coefs, ranges) + i128::from(f.constant)
}

fn greatest_value(ranges: &[Option<(i32, i32)>], f: &Form) -> i128
    requires { length ranges.now ≤ 1024 }
    ensures { result ≡ greatest_value ranges.now f.now }
{
    greatest_rest(&f.coefs, ranges) + i128::from(f.constant)
}

fn is_from(z: &i128, least: &i128) -> bool
    ensures { result ≡ int_le least.now z.now }
{
    *least <= *z
}

fn is_small(ranges: &[Option<(i32, i32)>], f: &Form) -> bool
    requires { length ranges.now ≤ 1024 }
    ensures { result ≡ is_small ranges.now f.now }
{
    is_from(&least_value(ranges, f), &-(1 << 30)) && is_from(&(1 << 30), &greatest_value(ranges, f))
}

/// Whether the form of an operation is that of an index: what it comes to, without a symbol or one counter of unknown range,
/// is small.
pub fn is_index(ranges: &[Option<(i32, i32)>], f: &Form) -> bool
    requires { length ranges.now ≤ 1024 }
    ensures { result ≡ is_index ranges.now f.now }
{
    leaves_out(f.symbol.is_none(), &f.coefs, ranges) && is_small(ranges, f)
}

/// The form of a bound or a first index.
pub fn index_form(ranges: &[Option<(i32, i32)>], form: Option<Form>) -> Option<Form>
    requires { length ranges.now ≤ 1024 }
    ensures { result ≡ index_form ranges.now form }
{
    let f = form?;
    if is_index(ranges, &f) { Some(f) } else { None }
}

/// A form again.
pub fn copy_of(alloc: Global, f: &Form) -> Result<Form, AllocError>
    ensures { IfOk result (λ r. r ≡ f.now) }
{
    Ok(Form {
        coefs: Vec::from_slice(alloc, &f.coefs)?,
        constant: f.constant,
        symbol: f.symbol,
    })
}
