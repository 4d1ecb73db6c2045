use crate::coded::Coded;
use crate::queries::append_names;
use lq_base::{Items, Kind, Name, NoMemory, Value};
use lq_model::{Column, ForeignKey, Index, Key, Unique};
use std::alloc::Global;

#[tactic(auto, unfolding(lq_codec::specs::Tables::column_codec), using(crate::proofs::Each::option_free))]
impl Coded for Column {
    ghost use Rattle.lq_codec.specs.State.{free};
    ghost use Rattle.lq_codec.specs.Tables.{column_codec};

    ghost codec = { column_codec };

    ghost within = { free };

    fn read(alloc: Global, bytes: &[u8]) -> Result<Option<(Column, &[u8])>, NoMemory> {
        match <(Name, (Kind, (bool, (Option<Value>, bool))))>::read(alloc, bytes)? {
            Some(((name, (kind, (nullable, (default, numbered)))), rest)) => {
                let column = Column {
                    name,
                    kind,
                    nullable,
                    default,
                    numbered,
                };
                Ok(Some((column, rest)))
            }
            None => Ok(None),
        }
    }

    fn write(&self, to: &mut Vec<u8>) -> Result<(), NoMemory> {
        self.name.write(to)?;
        self.kind.write(to)?;
        self.nullable.write(to)?;
        self.default.write(to)?;
        self.numbered.write(to)?;
        Ok(())
    }
}

#[tactic(auto, unfolding(lq_codec::specs::Tables::key_codec))]
impl Coded for Key {
    ghost use Rattle.lq_codec.specs.State.{free};
    ghost use Rattle.lq_codec.specs.Tables.{key_codec};

    ghost codec = { key_codec };

    ghost within = { free };

    fn read(alloc: Global, bytes: &[u8]) -> Result<Option<(Key, &[u8])>, NoMemory> {
        match <(Name, Items<Name>)>::read(alloc, bytes)? {
            Some(((name, columns), rest)) => Ok(Some((Key { name, columns }, rest))),
            None => Ok(None),
        }
    }

    fn write(&self, to: &mut Vec<u8>) -> Result<(), NoMemory> {
        self.name.write(to)?;
        append_names(&self.columns, to)?;
        Ok(())
    }
}

#[tactic(auto, unfolding(lq_codec::specs::Tables::unique_codec))]
impl Coded for Unique {
    ghost use Rattle.lq_codec.specs.State.{free};
    ghost use Rattle.lq_codec.specs.Tables.{unique_codec};

    ghost codec = { unique_codec };

    ghost within = { free };

    fn read(alloc: Global, bytes: &[u8]) -> Result<Option<(Unique, &[u8])>, NoMemory> {
        match <(Name, Items<Name>)>::read(alloc, bytes)? {
            Some(((name, columns), rest)) => Ok(Some((Unique { name, columns }, rest))),
            None => Ok(None),
        }
    }

    fn write(&self, to: &mut Vec<u8>) -> Result<(), NoMemory> {
        self.name.write(to)?;
        append_names(&self.columns, to)?;
        Ok(())
    }
}

#[tactic(auto, unfolding(lq_codec::specs::Tables::foreign_codec))]
impl Coded for ForeignKey {
    ghost use Rattle.lq_codec.specs.State.{free};
    ghost use Rattle.lq_codec.specs.Tables.{foreign_codec};

    ghost codec = { foreign_codec };

    ghost within = { free };

    fn read(alloc: Global, bytes: &[u8]) -> Result<Option<(ForeignKey, &[u8])>, NoMemory> {
        match <(Name, (Items<Name>, (Name, (Items<Name>, bool))))>::read(alloc, bytes)? {
            Some(((name, (columns, (table, (targets, cascade)))), rest)) => {
                let foreign = ForeignKey {
                    name,
                    columns,
                    table,
                    targets,
                    cascade,
                };
                Ok(Some((foreign, rest)))
            }
            None => Ok(None),
        }
    }

    fn write(&self, to: &mut Vec<u8>) -> Result<(), NoMemory> {
        self.name.write(to)?;
        append_names(&self.columns, to)?;
        self.table.write(to)?;
        append_names(&self.targets, to)?;
        self.cascade.write(to)?;
        Ok(())
    }
}

#[tactic(auto, unfolding(lq_codec::specs::Tables::index_codec))]
impl Coded for Index {
    ghost use Rattle.lq_codec.specs.State.{free};
    ghost use Rattle.lq_codec.specs.Tables.{index_codec};

    ghost codec = { index_codec };

    ghost within = { free };

    fn read(alloc: Global, bytes: &[u8]) -> Result<Option<(Index, &[u8])>, NoMemory> {
        match <(Name, (Items<Name>, bool))>::read(alloc, bytes)? {
            Some(((name, (columns, unique)), rest)) => {
                let index = Index {
                    name,
                    columns,
                    unique,
                };
                Ok(Some((index, rest)))
            }
            None => Ok(None),
        }
    }

    fn write(&self, to: &mut Vec<u8>) -> Result<(), NoMemory> {
        self.name.write(to)?;
        append_names(&self.columns, to)?;
        self.unique.write(to)?;
        Ok(())
    }
}
