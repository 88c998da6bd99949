// One step of ACORN-128 v3, to be read with the cipher's paper (document 003) beside it. The functions are those of its section 1.3.2, named as there in
// this language's spelling, and each line of the paper is a statement here, in the same order. `s[j]` is the paper's S_{i,j}, and `next[j]` its S_{i+1,j};
// true is 1, `^` is ⊕ and `!` is ∼. What stands behind `ghost use` and `ensures` is for the prover (docs/READING.md).
#![tactic(auto)]

ghost use Rattle.std.specs.Prelude.{◌≡◌};
ghost use Rattle.acorn_model.specs.Step as model;
ghost use Rattle.single_step.specs.Clauses.{state_of, Steps};

// maj and ch are in section 1.2.3.
pub fn maj(x: bool, y: bool, z: bool) -> bool
    ensures { result ≡ model.maj x y z }
{
    (x & y) ^ (x & z) ^ (y & z)
}

pub fn ch(x: bool, y: bool, z: bool) -> bool
    ensures { result ≡ model.ch x y z }
{
    (x & y) ^ ((!x) & z)
}

// KSG128: the keystream bit ks_i, of S_i as step 1 of `state_update128` leaves it.
pub fn ksg128(s: &[bool; 293]) -> bool
    ensures { result ≡ model.ksg128 (state_of s.now) }
{
    s[12] ^ s[154] ^ maj(s[235], s[61], s[193]) ^ ch(s[230], s[111], s[66])
}

// FBK128: the feedback bit f_i, of the same S_i, ca_i and cb_i. Its formula reads ks_i as well, which is handed in here.
pub fn fbk128(s: &[bool; 293], ca: bool, cb: bool, ks: bool) -> bool
    ensures { result ≡ model.fbk128 ca cb ks (state_of s.now) }
{
    s[0] ^ (!s[107]) ^ maj(s[244], s[23], s[160]) ^ (ca & s[196]) ^ (cb & ks)
}

// What a step gives: S_{i+1}, as in the paper, and ks_i, which the ciphertext and the tag are made of.
#[derive(Clone, Copy)]
pub struct Stepped {
    pub state: [bool; 293],
    pub ks: bool,
}

// StateUpdate128: one step from S_i, with the message bit m_i and the control bits ca_i and cb_i.
pub fn state_update128(mut s: [bool; 293], m: bool, ca: bool, cb: bool) -> Stepped
    ensures { Steps s m ca cb result.ks result.state }
{
    // step 1: update the six LFSRs
    s[289] = s[289] ^ s[235] ^ s[230];
    s[230] = s[230] ^ s[196] ^ s[193];
    s[193] = s[193] ^ s[160] ^ s[154];
    s[154] = s[154] ^ s[111] ^ s[107];
    s[107] = s[107] ^ s[66] ^ s[61];
    s[61] = s[61] ^ s[23] ^ s[0];

    // step 2: generate ks
    let ks = ksg128(&s);

    // step 3: generate f
    let f = fbk128(&s, ca, cb, ks);

    // step 4: shift, and f ^ m comes in
    let mut next = [false; 293];
    next[0..=291].copy_from_slice(&s[1..=292]);
    next[292] = f ^ m;

    Stepped { state: next, ks }
}
