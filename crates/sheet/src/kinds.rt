// The kinds of lines, and the table of what each column may hold.
ghost use Rattle.std.specs.Prelude.{◌≡◌, ◌<◌, ◌≤◌, ◌==◌, true, find, if◌then◌else◌, Some, None};
ghost use Rattle.sheet.specs.Kinds.{table, entry_for, nameable, allowed, fits, weight_of};

use layout::Six;

// What a line is.
#[derive(Clone, Copy, PartialEq, Eq, Debug)]
pub enum Kind {
    Head,
    Before,
    After,
    Equal,
    Unequal,
    Cell,
    Segment,
    Set,
    Load,
    Store,
    New,
    Free,
    Jump,
    Branch,
    Cut,
    Call,
    Done,
}

// The part of a sheet that a line belongs to.
#[derive(Clone, Copy, PartialEq, Eq, Debug)]
pub enum Role {
    Head,
    Before,
    After,
    Atom,
    Row,
}

// What a column may hold.
#[derive(Clone, Copy, PartialEq, Eq, Debug)]
pub enum Class {
    // nothing: 0
    Unused,
    // 0 to 15
    RoutineNumber,
    // 1 to 6
    VariableCount,
    // 0 to 2, and at most the number of variables
    ArgumentCount,
    // 0 to 2
    GhostCount,
    // 1 to 40
    RowCount,
    // a variable
    Variable,
    // 0 or a variable
    Value,
    // a row of the sheet
    Target,
    // 0, one of the names that may stand there, or a ghost
    Named,
}

// One row of the table: the number of a kind, the classes of its columns, and what it adds to the weight of a piece. The number stands here and not with the kind: the table is the format's, and in the kinds' order.
#[derive(Clone, Copy, PartialEq, Eq, Debug)]
pub struct Entry {
    pub code: u16,
    pub kind: Kind,
    pub role: Role,
    pub classes: Six<Class>,
    pub weight: u8,
}

// What the classes depend on; the four functions below that take it are one test each, and no methods of it.
#[derive(Clone, Copy, PartialEq, Eq, Debug, Default)]
pub struct Scope {
    pub variables: u8,
    pub ghosts: u8,
    pub rows: u8,
    // the variables 1 to `named` may be named, but for `except`, which is 0 for none: no Option, since nil may always be named
    pub named: u8,
    pub except: u16,
}

const UNUSED: Six<Class> = Six {
    first: Class::Unused,
    second: Class::Unused,
    third: Class::Unused,
    fourth: Class::Unused,
    fifth: Class::Unused,
    sixth: Class::Unused,
};

const ATOM: Six<Class> = Six {
    first: Class::Named,
    second: Class::Named,
    ..UNUSED
};

const VARIABLE: Six<Class> = Six {
    first: Class::Variable,
    ..UNUSED
};

const VARIABLE_VALUE: Six<Class> = Six {
    first: Class::Variable,
    second: Class::Value,
    ..UNUSED
};

// Every kind of line.
pub const TABLE: [Entry; 17] = [
    Entry {
        code: 1,
        kind: Kind::Head,
        role: Role::Head,
        classes: Six {
            first: Class::RoutineNumber,
            second: Class::VariableCount,
            third: Class::ArgumentCount,
            fourth: Class::GhostCount,
            fifth: Class::RowCount,
            ..UNUSED
        },
        weight: 0,
    },
    Entry {
        code: 2,
        kind: Kind::Before,
        role: Role::Before,
        classes: UNUSED,
        weight: 0,
    },
    Entry {
        code: 3,
        kind: Kind::After,
        role: Role::After,
        classes: UNUSED,
        weight: 0,
    },
    Entry {
        code: 11,
        kind: Kind::Equal,
        role: Role::Atom,
        classes: ATOM,
        weight: 0,
    },
    Entry {
        code: 12,
        kind: Kind::Unequal,
        role: Role::Atom,
        classes: ATOM,
        weight: 0,
    },
    Entry {
        code: 13,
        kind: Kind::Cell,
        role: Role::Atom,
        classes: ATOM,
        weight: 0,
    },
    Entry {
        code: 14,
        kind: Kind::Segment,
        role: Role::Atom,
        classes: ATOM,
        weight: 0,
    },
    Entry {
        code: 21,
        kind: Kind::Set,
        role: Role::Row,
        classes: VARIABLE_VALUE,
        weight: 0,
    },
    Entry {
        code: 22,
        kind: Kind::Load,
        role: Role::Row,
        classes: Six {
            first: Class::Variable,
            second: Class::Variable,
            ..UNUSED
        },
        weight: 1,
    },
    Entry {
        code: 23,
        kind: Kind::Store,
        role: Role::Row,
        classes: VARIABLE_VALUE,
        weight: 1,
    },
    Entry {
        code: 24,
        kind: Kind::New,
        role: Role::Row,
        classes: VARIABLE,
        weight: 1,
    },
    Entry {
        code: 25,
        kind: Kind::Free,
        role: Role::Row,
        classes: VARIABLE,
        weight: 1,
    },
    Entry {
        code: 26,
        kind: Kind::Jump,
        role: Role::Row,
        classes: Six {
            first: Class::Target,
            ..UNUSED
        },
        weight: 0,
    },
    Entry {
        code: 27,
        kind: Kind::Branch,
        role: Role::Row,
        classes: Six {
            first: Class::Value,
            second: Class::Value,
            third: Class::Target,
            ..UNUSED
        },
        weight: 0,
    },
    Entry {
        code: 28,
        kind: Kind::Cut,
        role: Role::Row,
        classes: UNUSED,
        weight: 0,
    },
    Entry {
        code: 29,
        kind: Kind::Call,
        role: Role::Row,
        classes: Six {
            first: Class::Variable,
            second: Class::RoutineNumber,
            third: Class::Value,
            fourth: Class::Value,
            fifth: Class::Named,
            sixth: Class::Named,
        },
        weight: 0,
    },
    Entry {
        code: 30,
        kind: Kind::Done,
        role: Role::Row,
        classes: UNUSED,
        weight: 0,
    },
];

// The first entry that has the number.
fn found_in(entries: &[Entry], code: u16) -> Option<Entry>
    ensures { result ≡ find (λ row. row.code == code) entries.now }
{
    entries.iter().find(|row| row.code == code).copied()
}

// The table's entry for a number, if the number is that of a kind.
pub(crate) fn entry_for(code: u16) -> Option<Entry>
    ensures { result ≡ entry_for code table }
{
    found_in(&TABLE, code)
}

// What a row of the kind adds to the weight of a piece. The table has the kinds in their order.
pub(crate) fn weight_for(kind: Kind) -> u8
    ensures value { result ≡ weight_of kind }
    ensures small { result ≤ 1 }
{
    TABLE[kind as usize].weight
}

// Whether a name may stand there.
fn is_named(scope: &Scope, value: u16) -> bool
    ensures value { result ≡ nameable scope.now value }
    ensures small { result ≡ true → value < 256 }
{
    value == 0
        || value <= u16::from(scope.named) && value != scope.except
        || value == 7 && 1 <= scope.ghosts
        || value == 8 && 2 <= scope.ghosts
}

fn is_allowed(scope: &Scope, class: Class, value: u16) -> bool
    ensures value { result ≡ allowed scope.now class value }
    ensures small { result ≡ true → value < 256 }
{
    match class {
        Class::Unused => value == 0,
        Class::RoutineNumber => value <= 15,
        Class::VariableCount => 1 <= value && value <= 6,
        Class::ArgumentCount => value <= 2 && value <= u16::from(scope.variables),
        Class::GhostCount => value <= 2,
        Class::RowCount => 1 <= value && value <= 40,
        Class::Variable => 1 <= value && value <= u16::from(scope.variables),
        Class::Value => value <= u16::from(scope.variables),
        Class::Target => 1 <= value && value <= u16::from(scope.rows),
        Class::Named => is_named(scope, value),
    }
}

// The value, if its column may hold it. No `then_some`, which would narrow the value ahead of the test.
fn operand(scope: &Scope, class: Class, value: u16) -> Option<u8>
    ensures { result ≡ (if allowed scope.now class value then Some value else None) }
{
    if is_allowed(scope, class, value) {
        Some(value as u8)
    } else {
        None
    }
}

// The six columns, if each holds what it may hold. One line for each: a method of `Six` with a closure would have these six lines, and this its only call.
pub(crate) fn operands(scope: &Scope, classes: &Six<Class>, values: &Six<u16>) -> Option<Six<u8>>
    ensures { result ≡ (if fits scope.now classes.now values.now then Some values.now else None) }
{
    let first = operand(scope, classes.first, values.first)?;
    let second = operand(scope, classes.second, values.second)?;
    let third = operand(scope, classes.third, values.third)?;
    let fourth = operand(scope, classes.fourth, values.fourth)?;
    let fifth = operand(scope, classes.fifth, values.fifth)?;
    let sixth = operand(scope, classes.sixth, values.sixth)?;
    Some(Six {
        first,
        second,
        third,
        fourth,
        fifth,
        sixth,
    })
}
