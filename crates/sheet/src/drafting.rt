// What a line adds to a draft, and what may be wrong with it.
ghost use Rattle.std.specs.Prelude.{◌≡◌, ℕ, ◌+◌, ◌<◌, ◌≤◌, true, false, Ok, Err, MatchResult};
ghost use Rattle.sheet.specs.Laid.{laid, routine_in};
ghost use Rattle.sheet.specs.Routines.{total};
ghost use Rattle.sheet.specs.Reading.{atom_in_rows, atom_into, due, full, is_open, last_of, line_more, moved, next_by, open_in, open_last, overfull, scope_for, scope_in, wrong};
ghost use Rattle.sheet.specs.ModelReading.{checked_by, progress_in, RoomFor, rows_in};

use crate::building::{atom_for, row_for};
use crate::drafts::{Draft, Open, Stage};
use crate::kinds::{Entry, Kind, Role, Scope, entry_for, operands};
use crate::rows::{ATOMS, LIST, ROWS};
use crate::sheets::{Body, Head};
use heap::{Atom, Problem};
use layout::{Numbers, Six};

impl Body {
    // The list to which an atom would belong among the rows: the last row's, or ahead of all rows the after list.
    fn open(&self) -> Option<Open>
        requires { self.now ≡ laid (routine_in self.now) }
        ensures { result ≡ open_last (routine_in self.now) (last_of (rows_in self.now)) }
    {
        match self.rows.as_slice().last() {
            Some(row) => row.open(self.head.variables),
            None => Some(Open {
                named: 1,
                except: 0,
                count: usize::from(self.after.count),
            }),
        }
    }

    // One atom more among the rows: in the last row's list, or ahead of all rows in the after list.
    fn add_atom(&mut self, atom: Atom)
        requires whole { self.old ≡ laid (routine_in self.old) }
        requires open { is_open (open_last (routine_in self.old) (last_of (rows_in self.old))) ≡ true }
        requires room { full (open_last (routine_in self.old) (last_of (rows_in self.old))) ≡ false }
        ensures whole { self.new ≡ laid (routine_in self.new) }
        ensures routine { routine_in self.new ≡ atom_in_rows (routine_in self.old) atom (rows_in self.old) }
        ensures count { total (routine_in self.new) ≡ total (routine_in self.old) + 1 }
    {
        prove!(self.rows.len() <= ROWS);
        match self.rows.pop() {
            Some(mut row) => {
                row.push(atom);
                self.rows.push(row);
            }
            None => self.after.push(atom),
        }
    }
}

impl Draft {
    fn open(&self) -> Option<Open>
        ensures { result ≡ open_in (progress_in self.now) }
    {
        match self.stage {
            Stage::Start | Stage::Headed => None,
            Stage::BeforeList => Some(Open {
                named: self.body.head.arguments,
                except: 0,
                count: usize::from(self.body.before.count),
            }),
            Stage::Rows => self.body.open(),
        }
    }

    fn is_due(&self, role: Role) -> bool
        ensures { result ≡ due (progress_in self.now) role }
    {
        match (role, self.stage) {
            (Role::Head, Stage::Start) => true,
            (Role::Before, Stage::Headed) => true,
            (Role::After, Stage::BeforeList) => true,
            (Role::Atom, _) => self.open().is_some(),
            (Role::Row, Stage::Rows) => self.body.rows.len() < usize::from(self.promised),
            _ => false,
        }
    }

    fn scope(&self, named: u8, except: u16) -> Scope
        ensures { result ≡ scope_in (progress_in self.now) named except }
    {
        Scope {
            variables: self.body.head.variables,
            ghosts: self.body.head.ghosts,
            rows: self.promised,
            named,
            except,
        }
    }

    // What the columns of a line may hold. The head's own number of variables bounds its arguments; the ghosts of a call may not be its result.
    fn scope_for(&self, role: Role, values: &Six<u16>) -> Scope
        ensures { result ≡ scope_for (progress_in self.now) role values.now }
    {
        match role {
            Role::Head => Scope {
                variables: values.second.min(6) as u8,
                ..Scope::default()
            },
            Role::Before | Role::After => self.scope(0, 0),
            Role::Atom => match self.open() {
                Some(open) => self.scope(open.named, u16::from(open.except)),
                None => self.scope(0, 0),
            },
            Role::Row => self.scope(self.body.head.variables, values.first),
        }
    }

    // Whether one atom more is too many for its list or for the sheet.
    fn is_overfull(&self, role: Role) -> bool
        ensures { result ≡ overfull (progress_in self.now) role }
    {
        match (role, self.open()) {
            (Role::Atom, Some(open)) => open.count >= LIST || self.atoms >= ATOMS,
            (Role::Atom, None) => self.atoms >= ATOMS,
            _ => false,
        }
    }

    // The first that is wrong with a line of a known kind; its columns if nothing is.
    fn checked(&self, entry: &Entry, values: &Six<u16>) -> Result<Six<u8>, Problem>
        ensures { result ≡ checked_by (wrong (progress_in self.now) entry.now values.now) values.now }
    {
        if !self.is_due(entry.role) {
            return Err(Problem::NotDue);
        }
        let scope = self.scope_for(entry.role, values);
        let columns = operands(&scope, &entry.classes, values).ok_or(Problem::Operand)?;
        if self.is_overfull(entry.role) {
            return Err(Problem::AtomCount);
        }
        Ok(columns)
    }

    // What an atom line adds.
    fn add_atom(&mut self, atom: Atom)
        requires open { is_open (open_in (progress_in self.old)) ≡ true }
        requires room { full (open_in (progress_in self.old)) ≡ false }
        requires few { self.old.atoms < 80 }
        ensures { progress_in self.new ≡ moved (progress_in self.old) self.old.stage (atom_into self.old.stage (routine_in self.old.body) atom) }
    {
        if matches!(self.stage, Stage::Rows) {
            self.body.add_atom(atom);
        } else {
            self.body.before.push(atom);
        }
        self.atoms += 1;
    }

    // What a line adds. By `match` and no table of functions, since each role changes another part of the draft.
    fn add(&mut self, role: Role, kind: Kind, columns: &Six<u8>)
        requires due { due (progress_in self.old) role ≡ true }
        requires room { RoomFor (progress_in self.old) role columns.now }
        ensures { progress_in self.new ≡ next_by role (progress_in self.old) kind columns.now }
    {
        match role {
            Role::Head => {
                self.stage = Stage::Headed;
                self.promised = columns.fifth;
                self.body.head = Head {
                    own: columns.first,
                    variables: columns.second,
                    arguments: columns.third,
                    ghosts: columns.fourth,
                };
            }
            Role::Before => self.stage = Stage::BeforeList,
            Role::After => self.stage = Stage::Rows,
            Role::Atom => self.add_atom(atom_for(kind, columns)),
            Role::Row => self.body.rows.push(row_for(kind, columns)),
        }
    }

    // Takes one line, or says what is wrong with it and leaves the draft as it was.
    pub(crate) fn take(&mut self, line: &Numbers) -> Result<(), Problem>
        ensures { MatchResult result (λ _. line_more (progress_in self.old) line.now ≡ Ok (progress_in self.new)) (λ w. (line_more (progress_in self.old) line.now ≡ Err w) × (self.new ≡ self.old)) }
    {
        let entry = entry_for(line.kind).ok_or(Problem::NotDue)?;
        let columns = self.checked(&entry, &line.operands)?;
        self.add(entry.role, entry.kind, &columns);
        Ok(())
    }
}
