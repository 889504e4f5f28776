//! Sections put together at random.

use crate::noise::Noise;
use std::alloc::Global;
use std::test::Fail;
use wsm_bytecode::{Arithmetic, Comparison, FieldTest, Instr, SectionId};

/// What a place of the stack holds.
#[derive(Clone, Copy, PartialEq, Eq)]
enum Held {
    Int,
    Bool,
    Key,
}

/// The three sections of a program.
#[derive(Drop)]
pub struct Sections {
    pub selection: Vec<Instr>,
    pub update: Vec<Instr>,
    pub fire: Vec<Instr>,
}

// Numbers that a section pushes, most of them small.
const NUMBERS: [i64; 12] = [
    0,
    1,
    1,
    2,
    3,
    -1,
    -7,
    60,
    100,
    1_000_000,
    i64::MAX,
    i64::MIN,
];

const ARITHMETIC: [Instr; 8] = [
    Instr::Compute(Arithmetic::Add),
    Instr::Compute(Arithmetic::Add),
    Instr::Compute(Arithmetic::Add),
    Instr::Compute(Arithmetic::Sub),
    Instr::Compute(Arithmetic::Sub),
    Instr::Compute(Arithmetic::Mul),
    Instr::Compute(Arithmetic::Div),
    Instr::Compute(Arithmetic::Rem),
];

const COMPARISONS: [Instr; 6] = [
    Instr::Compare(Comparison::Eq),
    Instr::Compare(Comparison::Ne),
    Instr::Compare(Comparison::Lt),
    Instr::Compare(Comparison::Le),
    Instr::Compare(Comparison::Gt),
    Instr::Compare(Comparison::Ge),
];

const TESTS: [Comparison; 6] = [
    Comparison::Eq,
    Comparison::Ne,
    Comparison::Lt,
    Comparison::Le,
    Comparison::Gt,
    Comparison::Ge,
];

// Numbers that the field is compared with: both ends of its interval, beside them, and within.
const TESTED: [i64; 6] = [0, 0, 1, 60, 100, -1];

// A section that is being written, and what its instructions leave on the stack.
#[derive(Drop)]
struct Draft {
    section: SectionId,
    code: Vec<Instr>,
    stack: Vec<Held>,
}

impl Draft {
    fn new(alloc: Global, section: SectionId) -> Draft {
        Draft {
            section,
            code: Vec::new(alloc),
            stack: Vec::new(alloc),
        }
    }

    fn put(&mut self, instr: Instr) -> Result<(), Fail> {
        self.code.push(instr)?;
        Ok(())
    }

    fn push(&mut self, instr: Instr, held: Held) -> Result<(), Fail> {
        self.code.push(instr)?;
        self.stack.push(held)?;
        Ok(())
    }

    // The place so many instructions behind the next one.
    fn ahead(&self, by: u16) -> u16 {
        u16::try_from(self.code.len())
            .unwrap_or(u16::MAX)
            .saturating_add(by)
    }

    fn push_int(&mut self, noise: &mut Noise) -> Result<(), Fail> {
        let instr = match (self.section, noise.below(12)) {
            (SectionId::Fire, 0..=2) => Instr::Count,
            (SectionId::Fire, 3..=5) => Instr::Acc(0),
            (SectionId::Where | SectionId::Update, 0..=5) => Instr::Field(0),
            (SectionId::Where | SectionId::Update, 6) => return self.push_guarded(noise),
            _ => Instr::PushInt(noise.one_of(&NUMBERS, 1)),
        };
        self.push(instr, Held::Int)
    }

    // A number divided by the field where a test of it is true, else a number alone.
    fn push_guarded(&mut self, noise: &mut Noise) -> Result<(), Fail> {
        self.put(Instr::Test(field_test(noise), self.ahead(5)))?;
        self.put(Instr::PushInt(noise.one_of(&NUMBERS, 1)))?;
        self.put(Instr::Field(0))?;
        self.put(Instr::Compute(Arithmetic::Div))?;
        self.put(Instr::Jump(self.ahead(2)))?;
        self.push(Instr::PushInt(noise.one_of(&NUMBERS, 1)), Held::Int)
    }

    fn push_key(&mut self, noise: &mut Noise) -> Result<(), Fail> {
        let keys = [Instr::Key, Instr::PushEnum(0, 0), Instr::PushEnum(0, 1)];
        self.push(noise.one_of(&keys, Instr::Key), Held::Key)
    }

    fn push_any(&mut self, noise: &mut Noise) -> Result<(), Fail> {
        match noise.below(6) {
            0 => self.push(Instr::PushBool(true), Held::Bool),
            1 => self.push(Instr::PushBool(false), Held::Bool),
            2 => self.push_key(noise),
            _ => self.push_int(noise),
        }
    }

    // Another value of the type on top, in its place.
    fn turn(&mut self) -> Result<(), Fail> {
        match self.stack.last() {
            Some(Held::Int) => self.put(Instr::Neg),
            Some(Held::Bool) => self.put(Instr::Not),
            Some(Held::Key) | None => Ok(()),
        }
    }

    // One value in the place of the two on top, or one less.
    fn join(&mut self, noise: &mut Noise) -> Result<(), Fail> {
        let Some(top) = self.stack.pop() else {
            return Ok(());
        };
        let Some(under) = self.stack.pop() else {
            self.stack.push(top)?;
            return Ok(());
        };
        match (under, top) {
            (Held::Int, Held::Int) if noise.below(3) > 0 => {
                self.push(
                    noise.one_of(&ARITHMETIC, Instr::Compute(Arithmetic::Add)),
                    Held::Int,
                )
            }
            (Held::Int, Held::Int) => {
                self.push(
                    noise.one_of(&COMPARISONS, Instr::Compare(Comparison::Lt)),
                    Held::Bool,
                )
            }
            (Held::Bool, Held::Bool) | (Held::Key, Held::Key) => {
                self.push(
                    noise.one_of(
                        &[
                            Instr::Compare(Comparison::Eq),
                            Instr::Compare(Comparison::Ne),
                        ],
                        Instr::Compare(Comparison::Eq),
                    ),
                    Held::Bool,
                )
            }
            (other, top) => {
                self.stack.push(other)?;
                self.stack.push(top)?;
                self.drop_top(noise)
            }
        }
    }

    // Takes the value on top away.
    fn drop_top(&mut self, noise: &mut Noise) -> Result<(), Fail> {
        self.settle(Held::Bool, noise)?;
        let _truth = self.stack.pop();
        self.put(Instr::JumpIfFalse(self.ahead(1)))
    }

    // A value of a type in the place of the one on top.
    fn settle(&mut self, want: Held, noise: &mut Noise) -> Result<(), Fail> {
        let found = self.stack.pop();
        match (found, want) {
            (Some(Held::Int), Held::Bool) => {
                self.put(Instr::PushInt(noise.one_of(&NUMBERS, 1)))?;
                self.push(
                    noise.one_of(&COMPARISONS, Instr::Compare(Comparison::Lt)),
                    Held::Bool,
                )
            }
            (Some(Held::Key), Held::Bool) => {
                self.put(Instr::Key)?;
                self.push(Instr::Compare(Comparison::Eq), Held::Bool)
            }
            (Some(Held::Bool), Held::Int) => self.choose(noise),
            (Some(Held::Key), Held::Int) => {
                self.put(Instr::PushEnum(0, 0))?;
                self.put(Instr::Compare(Comparison::Ne))?;
                self.choose(noise)
            }
            (Some(held), _) => {
                self.stack.push(held)?;
                Ok(())
            }
            (None, Held::Int) => self.push_int(noise),
            (None, _) => self.push(Instr::PushBool(true), Held::Bool),
        }
    }

    // One of two numbers, by the truth on top, which is not counted any more.
    fn choose(&mut self, noise: &mut Noise) -> Result<(), Fail> {
        self.put(Instr::JumpIfFalse(self.ahead(3)))?;
        self.put(Instr::PushInt(noise.one_of(&NUMBERS, 1)))?;
        self.put(Instr::Jump(self.ahead(2)))?;
        self.push(Instr::PushInt(noise.one_of(&NUMBERS, 1)), Held::Int)
    }

    // Folds the value on top, and another one.
    fn fold_twice(&mut self, noise: &mut Noise) -> Result<(), Fail> {
        self.put(Instr::Fold(0))?;
        self.put(Instr::PushInt(noise.one_of(&NUMBERS, 1)))?;
        self.put(Instr::Fold(0))
    }

    // Takes the number on top away.
    fn let_go(&mut self) -> Result<(), Fail> {
        self.put(Instr::PushInt(0))?;
        self.put(Instr::Compare(Comparison::Lt))?;
        self.put(Instr::JumpIfFalse(self.ahead(1)))
    }

    // A step that the stack allows.
    fn grow(&mut self, noise: &mut Noise) -> Result<(), Fail> {
        match noise.below(8) {
            0..=3 => self.push_any(noise),
            4 => self.turn(),
            5 => self.settle(Held::Int, noise),
            _ => self.join(noise),
        }
    }

    // One value of a type more than there were.
    fn value(&mut self, want: Held, noise: &mut Noise) -> Result<(), Fail> {
        let base = self.stack.len();
        self.push_any(noise)?;
        for _ in 0..noise.below(8) {
            self.grow_over(base, noise)?;
        }
        for _ in 0..40 {
            self.shrink_to(base, noise)?;
        }
        self.settle(want, noise)
    }

    // A step that leaves the values below a height alone.
    fn grow_over(&mut self, base: usize, noise: &mut Noise) -> Result<(), Fail> {
        if self.stack.len() < base.saturating_add(2) {
            self.push_any(noise)
        } else {
            self.grow(noise)
        }
    }

    // A step towards one value above a height.
    fn shrink_to(&mut self, base: usize, noise: &mut Noise) -> Result<(), Fail> {
        if self.stack.len() > base.saturating_add(1) {
            self.join(noise)
        } else {
            Ok(())
        }
    }
}

// A test of the field: that it isn't 0, or in one of four cases any.
fn field_test(noise: &mut Noise) -> FieldTest {
    if noise.below(4) > 0 {
        return FieldTest {
            field: 0,
            comparison: Comparison::Ne,
            number: 0,
        };
    }
    FieldTest {
        field: 0,
        comparison: noise.one_of(&TESTS, Comparison::Ne),
        number: noise.one_of(&TESTED, 0),
    }
}

fn selection(alloc: Global, noise: &mut Noise) -> Result<Vec<Instr>, Fail> {
    let mut draft = Draft::new(alloc, SectionId::Where);
    // Now and then more values than the stack has places for.
    if noise.below(60) == 0 {
        for _ in 0..33 {
            draft.push_int(noise)?;
        }
    }
    draft.value(Held::Bool, noise)?;
    draft.put(Instr::Return)?;
    Ok(draft.code)
}

fn update(alloc: Global, noise: &mut Noise) -> Result<Vec<Instr>, Fail> {
    let mut draft = Draft::new(alloc, SectionId::Update);
    if noise.below(3) == 0 {
        draft.value(Held::Bool, noise)?;
        draft.put(Instr::JumpIfFalse(draft.ahead(4)))?;
        draft.put(Instr::PushInt(noise.one_of(&NUMBERS, 1)))?;
        draft.put(Instr::Fold(0))?;
        draft.put(Instr::Jump(draft.ahead(3)))?;
        draft.put(Instr::Field(0))?;
    } else {
        draft.value(Held::Int, noise)?;
    }
    // Now and then the value is folded twice, or let go.
    match noise.below(60) {
        0 => draft.fold_twice(noise)?,
        1 => draft.let_go()?,
        _ => draft.put(Instr::Fold(0))?,
    }
    draft.put(Instr::Return)?;
    Ok(draft.code)
}

fn fire(alloc: Global, noise: &mut Noise) -> Result<Vec<Instr>, Fail> {
    let mut draft = Draft::new(alloc, SectionId::Fire);
    draft.value(Held::Int, noise)?;
    draft.value(Held::Int, noise)?;
    draft.value(Held::Bool, noise)?;
    draft.put(Instr::Return)?;
    Ok(draft.code)
}

// Any instruction, with any operand.
fn wild(noise: &mut Noise) -> Instr {
    let small = noise.one_of(&[0u8, 0, 0, 0, 1, 2, 255], 0);
    let place = noise.one_of(&[0u16, 1, 2, 3, 4, 5, 6, 8, 10, 12, 999, u16::MAX], 0);
    let all = [
        Instr::PushInt(noise.one_of(&NUMBERS, 1)),
        Instr::PushBool(true),
        Instr::PushEnum(small, place % 3),
        Instr::Field(small),
        Instr::Key,
        Instr::Acc(small),
        Instr::Count,
        noise.one_of(&ARITHMETIC, Instr::Compute(Arithmetic::Add)),
        Instr::Neg,
        noise.one_of(&COMPARISONS, Instr::Compare(Comparison::Lt)),
        Instr::Not,
        Instr::Jump(place),
        Instr::JumpIfFalse(place),
        Instr::Test(field_test(noise), place),
        Instr::Fold(small),
        Instr::Return,
    ];
    noise.one_of(&all, Instr::Return)
}

// Damages a section at a place: an instruction is changed, put in or taken away.
fn damage(code: &mut Vec<Instr>, noise: &mut Noise) -> Result<(), Fail> {
    let instr = wild(noise);
    let place = noise.next() as usize % code.len().saturating_add(1);
    match noise.below(4) {
        0 if place < code.len() => {
            let _gone = code.remove(place);
        }
        1 => code.insert(place, instr)?,
        _ => {
            if let Some(old) = code.get_mut(place) {
                *old = instr;
            }
        }
    }
    Ok(())
}

impl Sections {
    /// Sections whose stacks fit, or in half of the cases nearly so.
    pub fn at_random(alloc: Global, noise: &mut Noise) -> Result<Sections, Fail> {
        let mut selection = selection(alloc, noise)?;
        let mut update = update(alloc, noise)?;
        let mut fire = fire(alloc, noise)?;
        match noise.below(6) {
            0 => damage(&mut selection, noise)?,
            1 => damage(&mut update, noise)?,
            2 => damage(&mut fire, noise)?,
            _ => (),
        }
        Ok(Sections {
            selection,
            update,
            fire,
        })
    }
}
