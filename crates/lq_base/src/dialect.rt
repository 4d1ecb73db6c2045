ghost use Rattle.std.specs.Prelude.{◌≡◌};
ghost use Rattle.lq_base.specs.Name.{dialect_text};

/// The profile of the engine: which statements there are, how they are spelled, and how they commit.
#[derive(Clone, Copy, Debug, PartialEq, Eq)]
pub enum Dialect {
    Postgresql,
    Mysql,
}

impl Dialect {
    /// Its name, `postgresql` or `mysql`.
    pub fn text(self) -> &'static str
        ensures { result.now ≡ dialect_text self }
    {
        match self {
            Dialect::Postgresql => "postgresql",
            Dialect::Mysql => "mysql",
        }
    }
}
