//! The words that query texts, programs and their meaning share.

ghost use Rattle.std.specs.Prelude.{◌≡◌};
ghost use Rattle.wsm_record.specs.Modes.{is_over_all, may_write, retracts};
ghost use Rattle.wsm_record.specs.Types.{kind_type};

/// What a firing's columns are computed over (Akidau et al. 2015, "refinement").
#[derive(Clone, Copy, Debug, PartialEq, Eq)]
pub enum Mode {
    /// The records that no earlier firing showed.
    Discarding,
    /// All records of the pane.
    Accumulating,
    /// All records of the pane; what stood for it before is withdrawn.
    Retracting,
}

impl Mode {
    /// Whether a firing is computed over all records of its pane, and not over those alone that no
    /// earlier firing showed.
    pub fn is_over_all(self) -> bool
        ensures { result ≡ is_over_all self }
    {
        match self {
            Mode::Accumulating | Mode::Retracting => true,
            Mode::Discarding => false,
        }
    }

    /// Whether what stood for a pane is withdrawn.
    pub fn retracts(self) -> bool
        ensures { result ≡ retracts self }
    {
        match self {
            Mode::Retracting => true,
            Mode::Accumulating | Mode::Discarding => false,
        }
    }

    /// Whether a query of this mode may write this form: a stream of changes is of accumulating panes
    /// alone.
    pub fn may_write(self, form: Form) -> bool
        ensures { result ≡ may_write self form }
    {
        match (self, form) {
            (Mode::Accumulating, _) | (Mode::Discarding | Mode::Retracting, Form::Panes) => true,
            (Mode::Discarding | Mode::Retracting, Form::Istream | Form::Dstream | Form::Rstream) =>
                false,
        }
    }
}

/// What a query writes: its panes, or one of the streams of a relation (Arasu et al. 2006).
#[derive(Clone, Copy, Debug, PartialEq, Eq)]
pub enum Form {
    /// A row for each pane that fires.
    Panes,
    /// The rows that the relation gained since the last instant.
    Istream,
    /// The rows that the relation lost since the last instant.
    Dstream,
    /// The rows of the relation.
    Rstream,
}

/// The type of a value that is computed: of an expression, a column, an accumulator or a place of
/// the stack.
#[derive(Clone, Copy, Debug, PartialEq, Eq)]
pub enum CellType {
    /// Whole numbers of 64 bits.
    Int,
    /// Truths.
    Bool,
    /// Names: of the keys (0), or of field `e - 1` (`e` from 1 on), which is an ENUM then.
    Enum(u8),
}

/// How an aggregate folds the values of its records.
#[derive(Clone, Copy, Debug, PartialEq, Eq)]
pub enum Kind {
    /// Their sum.
    Sum,
    /// The least.
    Min,
    /// The greatest.
    Max,
    /// Whether some is true.
    Any,
    /// Whether all are true.
    All,
}

impl Kind {
    /// The type of the values, and of what they come to.
    pub fn ty(self) -> CellType
        ensures { result ≡ kind_type self }
    {
        match self {
            Kind::Sum | Kind::Min | Kind::Max => CellType::Int,
            Kind::Any | Kind::All => CellType::Bool,
        }
    }
}
