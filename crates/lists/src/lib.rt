// How a list is handed out in lent numbers: the answer tells how many there are, or how many are wanted.
//
// Here stand the rules, in specs/, and what follows from them. The crates whose lists they are have the code.
#![tactic(auto)]

// C is given this by every call that lists or writes: the refusal is a number, and 10 tells the room wanted beside it.
#[repr(C)]
#[derive(Default, Drop)]
pub struct ListAnswer {
    pub refusal: u64,
    pub count: u64,
}
