// Layer ground.
// Figures as they are printed: digits and a point, placed into a lent buffer.
#![tactic(auto)]

ghost use Rattle.base.specs.Put.{Put};
ghost use Rattle.prints.specs.Figure.{fixed, shortest, figure};

// Places the last n decimal digits of v. It calls itself: digits are worked out from the last, and placed from the first.
fn put_fixed(buf: &mut [u8], at: usize, n: usize, v: u64) -> usize
    ensures { Put buf.old at (fixed n v) result buf.new }
{
    if n == 0 {
        at
    } else {
        let p = put_fixed(buf, at, n - 1, v / 10);
        base::put_byte(buf, p, b'0' + (v % 10) as u8)
    }
}

// Places v without needless leading zeros, if n digits are enough for it.
fn put_shortest(buf: &mut [u8], at: usize, n: usize, v: u64) -> usize
    ensures { Put buf.old at (shortest n v) result buf.new }
{
    if n == 0 {
        return at;
    }
    if v < 10 {
        base::put_byte(buf, at, b'0' + v as u8)
    } else {
        let p = put_shortest(buf, at, n - 1, v / 10);
        base::put_byte(buf, p, b'0' + (v % 10) as u8)
    }
}

// Places v as a figure, where v counts units of the k-th decimal.
pub fn put_figure(buf: &mut [u8], at: usize, k: usize, v: u64) -> usize
    ensures { Put buf.old at (figure k v) result buf.new }
{
    let p = put_shortest(buf, at, 20, figures::whole_part(v, k));
    if k == 0 {
        p
    } else {
        let q = base::put_byte(buf, p, b'.');
        put_fixed(buf, q, k, v)
    }
}
