// Runs cases (a) to (g) of document 01 on the single step, and further cases, each a state of zeros but for the places named: alone each place that an
// update or a formula reads, and S292; then two or three of them together. A control bit that (a) to (g) leave open is run at 0 and at 1, alone both are,
// and together both are 0. A line has the places that hold 1 before the step, m, ca and cb; then ks, and the places that hold 1 after it.
// A step with another order of the updates, one update fewer, or one place of an update or a formula moved prints other lines; tests/twin/tests/step_cases.rs
// tries them all.
#![tactic(auto)]

ghost use Rattle.std.specs.Prelude.{◌<◌, All};

use std::{fmt, io};

// The values of a control bit that a case leaves open.
const EITHER: [bool; 2] = [false, true];

// The state that holds 1 at these places.
fn state_with(ones: &[usize]) -> [bool; 293]
    requires { All (λ place. place < 293) ones.now }
{
    let mut s = [false; 293];
    for &place in ones {
        s[place] = true;
    }
    s
}

// The places that hold 1.
#[derive(Drop)]
struct Ones<'a>(&'a [bool; 293]);

impl fmt::Display for Ones<'_> {
    fn fmt<W: fmt::Write>(&self, f: &mut fmt::Formatter<W>) -> fmt::Result {
        let s = self.0;
        if !s.contains(&true) {
            return f.write_str(" none");
        }
        for (place, &bit) in s.iter().enumerate() {
            if bit {
                write!(f, " S{place}")?;
            }
        }
        Ok(())
    }
}

fn print_step(
    rt: &impl Print,
    name: &str,
    before: [bool; 293],
    m: bool,
    ca: bool,
    cb: bool,
) -> io::Result<()> {
    let stepped = single_step::state_update128(before, m, ca, cb);
    let [m, ca, cb, ks] = [m, ca, cb, stepped.ks].map(u8::from);
    let before = Ones(&before);
    let after = Ones(&stepped.state);
    println!(rt; "{name} before{before}, m {m}, ca {ca}, cb {cb}: ks {ks}, after{after}")
}

// A case, at each of the values of the control bits.
fn print_case(
    rt: &impl Print,
    name: &str,
    before: [bool; 293],
    m: bool,
    ca: &[bool],
    cb: &[bool],
) -> io::Result<()> {
    for &ca in ca {
        for &cb in cb {
            print_step(rt, name, before, m, ca, cb)?;
        }
    }
    Ok(())
}

fn main(rt: HostRuntime) -> io::Result<()> {
    println!(rt; "One step from each state; a place that is not named holds 0.")?;
    print_case(&rt, "(a)", state_with(&[]), false, &[true], &[true])?;
    print_case(&rt, "(b)", state_with(&[]), true, &EITHER, &EITHER)?;
    print_case(&rt, "(c)", state_with(&[0]), false, &EITHER, &EITHER)?;
    print_case(&rt, "(d)", state_with(&[66]), false, &EITHER, &[true])?;
    print_case(&rt, "(e)", state_with(&[66]), false, &EITHER, &[false])?;
    print_case(&rt, "(f)", state_with(&[196]), false, &[true], &EITHER)?;
    print_case(&rt, "(g)", state_with(&[196]), false, &[false], &EITHER)?;

    for place in [
        292, 289, 244, 235, 230, 196, 193, 160, 154, 111, 107, 66, 61, 23, 12, 0,
    ] {
        print_case(&rt, "alone", state_with(&[place]), false, &EITHER, &EITHER)?;
    }
    // f is 0 here and 1 in (b), so that f ^ m is told from other bits of the two
    print_case(&rt, "alone", state_with(&[0]), true, &EITHER, &EITHER)?;

    for before in [
        // each update
        state_with(&[289, 235]),
        state_with(&[230, 196]),
        state_with(&[193, 160]),
        state_with(&[154, 111]),
        state_with(&[107, 66]),
        state_with(&[61, 23]),
        // maj in ks
        state_with(&[235, 61]),
        state_with(&[235, 193]),
        state_with(&[61, 193]),
        state_with(&[235, 61, 193]),
        // ch in ks
        state_with(&[230, 111]),
        state_with(&[230, 66]),
        state_with(&[111, 66]),
        state_with(&[230, 111, 66]),
        // maj in f
        state_with(&[244, 23]),
        state_with(&[244, 160]),
        state_with(&[23, 160]),
        state_with(&[244, 23, 160]),
        // these tell five places of maj and ch from others that the lines above do not
        state_with(&[289, 61]),
        state_with(&[289, 111]),
        state_with(&[230, 154]),
        state_with(&[244, 61]),
        state_with(&[244, 193]),
    ] {
        print_case(&rt, "together", before, false, &[false], &[false])?;
    }
    Ok(())
}
