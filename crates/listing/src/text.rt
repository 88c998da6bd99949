// Text in ASCII, written at the start of lent bytes. Each function answers how many bytes it wrote. (That there is room for the text stands in each contract,
// of another text each time, so that no struct could hold it.)
ghost use Rattle.std.specs.Prelude.{◌≤◌, ◌++◌, length};
ghost use Rattle.tape_model.specs.Listing as model;
ghost use Rattle.listing.specs.Clauses.{Wrote};

// A number in decimal. (std writes digits only as text through `fmt::Write`; a writer over lent bytes, with its contract, would be longer than this.)
pub(crate) fn put_decimal(n: u64, out: &mut [u8]) -> usize
    requires { length (model.decimal n) ≤ length out.old }
    ensures { Wrote (model.decimal n) out.old result out.new }
{
    if n < 10 {
        out[0] = b'0' + n as u8;
        return 1;
    }
    let k = put_decimal(n / 10, out);
    out[k] = b'0' + (n % 10) as u8;
    k + 1
}

// A space, and a number.
pub(crate) fn put_number(n: u64, out: &mut [u8]) -> usize
    requires { length (model.space ++ model.decimal n) ≤ length out.old }
    ensures { Wrote (model.space ++ model.decimal n) out.old result out.new }
{
    out[0] = b' ';
    let k = put_decimal(n, &mut out[1..]);
    1 + k
}

// Numbers, a space before each.
pub(crate) fn put_numbers(ns: &[u64], out: &mut [u8]) -> usize
    requires { length (model.numbers ns.now) ≤ length out.old }
    ensures { Wrote (model.numbers ns.now) out.old result out.new }
{
    let mut at: usize = 0;
    for n in ns {
        at += put_number(*n, &mut out[at..]);
    }
    at
}

// The rest of a line: numbers, and the line's end.
pub(crate) fn put_rest(ns: &[u64], out: &mut [u8]) -> usize
    requires { length (model.numbers ns.now ++ model.line_end) ≤ length out.old }
    ensures { Wrote (model.numbers ns.now ++ model.line_end) out.old result out.new }
{
    let k = put_numbers(ns, out);
    out[k] = b'\n';
    k + 1
}

// A line: a word, and numbers behind it.
pub(crate) fn put_line(word: &[u8], ns: &[u64], out: &mut [u8]) -> usize
    requires { length (word.now ++ model.numbers ns.now ++ model.line_end) ≤ length out.old }
    ensures { Wrote (word.now ++ model.numbers ns.now ++ model.line_end) out.old result out.new }
{
    let w = word.len();
    out[..w].copy_from_slice(word);
    let k = put_rest(ns, &mut out[w..]);
    w + k
}

// A line of numbers, a space between them.
pub(crate) fn put_numbers_line(first: u64, ns: &[u64], out: &mut [u8]) -> usize
    requires { length (model.decimal first ++ model.numbers ns.now ++ model.line_end) ≤ length out.old }
    ensures { Wrote (model.decimal first ++ model.numbers ns.now ++ model.line_end) out.old result out.new }
{
    let n = put_decimal(first, out);
    let k = put_rest(ns, &mut out[n..]);
    n + k
}
