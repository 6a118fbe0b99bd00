//! The second layer: whether a row may stand where it stands, and what its columns mean.
ghost use Rattle.std.specs.Prelude.{◌≡◌};
ghost use Rattle.script.specs.Rows.{is, begun, begins_class, field_follows, method_follows, statement_follows, follows, below, variable, optional, arguments, passed, unused_b, unused_c, unused_d, two_variables, three_variables, constant, itself, branch, invocation, creation, reply, statement, label, head, item, entry};

use crate::class::{Arguments, Statement, Variable};
use crate::fault::RowFault;
use crate::reader::{Kind, Letter, Row};
use order::Level;

/// Where the next row stands: the number of the class at hand, and how many fields, methods and statements of the last method it has so far.
#[derive(Clone, Copy)]
pub struct Place {
    pub class: usize,
    pub fields: usize,
    pub methods: usize,
    pub statements: usize,
}

/// What a row says: the label of a field, the head of a method, or a statement.
#[derive(Clone, Copy)]
pub enum Item {
    Label { label: Level },
    Head { parameters: u8 },
    Action { statement: Statement },
}

/// What a row says, and whether a class begins with it.
#[derive(Clone, Copy)]
pub struct Entry {
    pub begins_class: bool,
    pub item: Item,
}

/// Whether a column holds the number `n`.
fn holds(column: i32, n: usize) -> bool
    ensures { result ≡ is column n }
{
    usize::try_from(column) == Ok(n)
}

impl Place {
    /// Whether the class at hand has a row.
    pub fn has_begun(&self) -> bool
        ensures { result ≡ begun self.now }
    {
        self.fields > 0 || self.methods > 0
    }

    fn next_class(&self, row: &Row) -> bool
        ensures { result ≡ begins_class self.now row.now }
    {
        self.has_begun() && self.class <= 6 && holds(row.class, self.class + 1)
    }

    fn takes_field(&self, row: &Row) -> bool
        ensures { result ≡ field_follows self.now row.now }
    {
        if !holds(row.method, 0) {
            return false;
        }
        if self.next_class(row) {
            return holds(row.to, 0);
        }
        holds(row.class, self.class)
            && self.methods == 0
            && self.fields <= 7
            && holds(row.to, self.fields)
    }

    fn takes_method(&self, row: &Row) -> bool
        ensures { result ≡ method_follows self.now row.now }
    {
        if self.next_class(row) {
            return holds(row.method, 0);
        }
        holds(row.class, self.class) && self.methods <= 3 && holds(row.method, self.methods)
    }

    fn takes_statement(&self, row: &Row) -> bool
        ensures { result ≡ statement_follows self.now row.now }
    {
        holds(row.class, self.class)
            && self.methods > 0
            && holds(row.method, self.methods - 1)
            && self.statements <= 31
    }

    fn takes(&self, row: &Row) -> bool
        ensures { result ≡ follows row.now.kind self.now row.now }
    {
        match row.kind {
            Kind::Field => self.takes_field(row),
            Kind::Parameters => self.takes_method(row),
            Kind::Statement(_) => self.takes_statement(row),
        }
    }

    /// What a row says at this place, under a count of levels.
    pub fn entry(&self, levels: u8, line: usize, row: &Row) -> Result<Entry, RowFault>
        ensures { result ≡ entry levels line self.now row.now }
    {
        if !self.takes(row) {
            return Err(RowFault::Sequence { line });
        }
        let begins_class = self.next_class(row);
        let item = row
            .item(levels, self.fields)
            .ok_or(RowFault::Range { line })?;
        Ok(Entry { begins_class, item })
    }
}

/// A number from 0 on, below a limit.
fn number_below(column: i32, limit: u8) -> Option<u8>
    ensures { result ≡ below column limit }
{
    u8::try_from(column).ok().filter(|n| *n < limit)
}

/// A variable of a class of so many fields: 0 to 7 are locals, 8 to 15 fields.
fn variable_of(column: i32, fields: usize) -> Option<Variable>
    ensures { result ≡ variable fields column }
{
    let number = number_below(column, 16)?;
    match number.checked_sub(8) {
        None => Some(Variable::Local(number)),
        Some(field) => (usize::from(field) < fields).then_some(Variable::Field(field)),
    }
}

/// A variable, or none where the column is −1.
fn optional_of(column: i32, fields: usize) -> Option<Option<Variable>>
    ensures { result ≡ optional fields column }
{
    if column == -1 {
        return Some(None);
    }
    variable_of(column, fields).map(Some)
}

/// The arguments in four columns, where there is no gap.
fn arguments_of(
    a: Option<Variable>,
    b: Option<Variable>,
    c: Option<Variable>,
    d: Option<Variable>,
) -> Option<Arguments>
    ensures { result ≡ arguments a b c d }
{
    match (a, b, c, d) {
        (None, None, None, None) => Some(Arguments::Empty),
        (Some(a), None, None, None) => Some(Arguments::One(a)),
        (Some(a), Some(b), None, None) => Some(Arguments::Two(a, b)),
        (Some(a), Some(b), Some(c), None) => Some(Arguments::Three(a, b, c)),
        (Some(a), Some(b), Some(c), Some(d)) => Some(Arguments::Four(a, b, c, d)),
        _ => None,
    }
}

impl Row {
    fn leaves_from_d(&self) -> bool
        ensures { result ≡ unused_d self.now }
    {
        self.d == 0 && self.e == 0 && self.f == 0
    }

    fn leaves_from_c(&self) -> bool
        ensures { result ≡ unused_c self.now }
    {
        self.c == 0 && self.leaves_from_d()
    }

    fn leaves_from_b(&self) -> bool
        ensures { result ≡ unused_b self.now }
    {
        self.b == 0 && self.leaves_from_c()
    }

    /// What goes from one variable to another.
    fn two_variables(&self, fields: usize) -> Option<(Variable, Variable)>
        ensures { result ≡ two_variables fields self.now }
    {
        let to = variable_of(self.to, fields)?;
        let a = variable_of(self.a, fields)?;
        self.leaves_from_b().then_some((to, a))
    }

    /// What two variables make for a third.
    fn three_variables(&self, fields: usize) -> Option<(Variable, Variable, Variable)>
        ensures { result ≡ three_variables fields self.now }
    {
        let to = variable_of(self.to, fields)?;
        let a = variable_of(self.a, fields)?;
        let b = variable_of(self.b, fields)?;
        self.leaves_from_c().then_some((to, a, b))
    }

    fn constant(&self, fields: usize) -> Option<Statement>
        ensures { result ≡ constant fields self.now }
    {
        let to = variable_of(self.to, fields)?;
        self.leaves_from_b()
            .then_some(Statement::Constant { to, number: self.a })
    }

    fn itself(&self, fields: usize) -> Option<Statement>
        ensures { result ≡ itself fields self.now }
    {
        let to = variable_of(self.to, fields)?;
        (self.a == 0 && self.leaves_from_b()).then_some(Statement::Itself { to })
    }

    fn branch(&self, fields: usize) -> Option<Statement>
        ensures { result ≡ branch fields self.now }
    {
        let guard = variable_of(self.a, fields)?;
        let first = number_below(self.b, 33)?;
        let second = number_below(self.c, 33)?;
        (self.to == 0 && self.leaves_from_d()).then_some(Statement::Branch {
            guard,
            first,
            second,
        })
    }

    fn arguments(&self, fields: usize) -> Option<Arguments>
        ensures { result ≡ passed fields self.now }
    {
        let c = optional_of(self.c, fields)?;
        let d = optional_of(self.d, fields)?;
        let e = optional_of(self.e, fields)?;
        let f = optional_of(self.f, fields)?;
        arguments_of(c, d, e, f)
    }

    fn invocation(&self, fields: usize) -> Option<Statement>
        ensures { result ≡ invocation fields self.now }
    {
        let to = optional_of(self.to, fields)?;
        let receiver = variable_of(self.a, fields)?;
        let method = number_below(self.b, 4)?;
        let arguments = self.arguments(fields)?;
        Some(Statement::Invoke {
            to,
            receiver,
            method,
            arguments,
        })
    }

    fn creation(&self, levels: u8, fields: usize) -> Option<Statement>
        ensures { result ≡ creation levels fields self.now }
    {
        let to = variable_of(self.to, fields)?;
        let class = number_below(self.a, 8)?;
        let level = number_below(self.b, levels)?;
        self.leaves_from_c()
            .then_some(Statement::Create { to, class, level })
    }

    fn reply(&self, fields: usize) -> Option<Statement>
        ensures { result ≡ reply fields self.now }
    {
        let value = variable_of(self.a, fields)?;
        (self.to == 0 && self.leaves_from_b()).then_some(Statement::Return { value })
    }

    /// The statement that the columns tell, in a class of so many fields, under a count of levels.
    fn statement(&self, levels: u8, fields: usize, letter: Letter) -> Option<Statement>
        ensures { result ≡ statement levels fields letter self.now }
    {
        match letter {
            Letter::N => self.constant(fields),
            Letter::T => self.itself(fields),
            Letter::C => self
                .two_variables(fields)
                .map(|(to, from)| Statement::Copy { to, from }),
            Letter::A => self
                .three_variables(fields)
                .map(|(to, left, right)| Statement::Add { to, left, right }),
            Letter::D => self.three_variables(fields).map(|(to, left, right)| Statement::Subtract {
                to,
                left,
                right,
            }),
            Letter::L => self
                .three_variables(fields)
                .map(|(to, left, right)| Statement::Less { to, left, right }),
            Letter::I => self.branch(fields),
            Letter::M => self.invocation(fields),
            Letter::G => self
                .two_variables(fields)
                .map(|(to, future)| Statement::Get { to, future }),
            Letter::O => self.creation(levels, fields),
            Letter::R => self.reply(fields),
        }
    }

    fn label(&self, levels: u8) -> Option<Item>
        ensures { result ≡ label levels self.now }
    {
        let label = number_below(self.a, levels)?;
        self.leaves_from_b().then_some(Item::Label { label })
    }

    fn head(&self) -> Option<Item>
        ensures { result ≡ head self.now }
    {
        let parameters = number_below(self.a, 5)?;
        (self.to == 0 && self.leaves_from_b()).then_some(Item::Head { parameters })
    }

    /// What the columns say, where each is in its range.
    fn item(&self, levels: u8, fields: usize) -> Option<Item>
        ensures { result ≡ item levels fields self.now.kind self.now }
    {
        match self.kind {
            Kind::Field => self.label(levels),
            Kind::Parameters => self.head(),
            Kind::Statement(letter) => self
                .statement(levels, fields, letter)
                .map(|statement| Item::Action { statement }),
        }
    }
}
