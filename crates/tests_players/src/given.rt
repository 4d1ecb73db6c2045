ghost use Rattle.std.specs.List.{All};
ghost use Rattle.std.specs.Prelude.{◌≡◌};
ghost use Rattle.lq_changelog.specs.Gathers.{HasShortTexts};
ghost use Rattle.lq_kinds.specs.ReadFor.{AreFor};

use lq_base::{Dialect, Items, NoMemory, Text};
use lq_changelog::load;
use lq_expr::Options;
use lq_kinds::Changelog;
use lq_model::SqlText;
use lq_outside::SureFiles;
use std::alloc::Global;
use std::process::Abort;

/// Two tables.
pub const FIRST: &str = r#"{"databaseChangeLog":[
{"changeSet":{"id":"1","author":"ann","changes":[
 {"createTable":{"tableName":"team","columns":[
  {"column":{"name":"id","type":"int","constraints":{"primaryKey":true}}},
  {"column":{"name":"name","type":"varchar(40)","constraints":{"nullable":false}}}]}},
 {"createTable":{"tableName":"player","columns":[
  {"column":{"name":"id","type":"int","constraints":{"primaryKey":true}}},
  {"column":{"name":"team_id","type":"int"}}]}}]}}]}"#;

/// Two tables, a foreign key and an index, each in a changeset of its own.
pub const ALL: &str = r#"{"databaseChangeLog":[
{"changeSet":{"id":"1","author":"ann","changes":[
 {"createTable":{"tableName":"team","columns":[
  {"column":{"name":"id","type":"int","constraints":{"primaryKey":true}}},
  {"column":{"name":"name","type":"varchar(40)","constraints":{"nullable":false}}}]}},
 {"createTable":{"tableName":"player","columns":[
  {"column":{"name":"id","type":"int","constraints":{"primaryKey":true}}},
  {"column":{"name":"team_id","type":"int"}}]}}]}},
{"changeSet":{"id":"2","author":"ann","changes":[
 {"addForeignKeyConstraint":{"constraintName":"fk_player_team",
  "baseTableName":"player","baseColumnNames":"team_id",
  "referencedTableName":"team","referencedColumnNames":"id"}}]}},
{"changeSet":{"id":"3","author":"bob","changes":[
 {"createIndex":{"indexName":"ix_player_team","tableName":"player",
  "columns":[{"column":{"name":"team_id"}}]}}]}}]}"#;

/// A changeset that runs although the changelog's own condition fails, which only warns.
pub const WARNS: &str = r#"{"databaseChangeLog":[
{"preConditions":[{"onFail":"WARN"},{"tableExists":{"tableName":"team"}}]},
{"changeSet":{"id":"1","author":"ann","changes":[
 {"createTable":{"tableName":"player","columns":[{"column":{"name":"id","type":"int"}}]}}]}}]}"#;

/// A changeset whose second statement is refused.
pub const CLASH: &str = r#"{"databaseChangeLog":[
{"changeSet":{"id":"1","author":"ann","changes":[
 {"createTable":{"tableName":"team","columns":[{"column":{"name":"id","type":"int"}}]}},
 {"createTable":{"tableName":"team","columns":[{"column":{"name":"id","type":"int"}}]}}]}}]}"#;

fn files_of(alloc: Global, path: &str, json: &str) -> Result<SureFiles, NoMemory> {
    let path = Text::new(alloc, path)?;
    let bytes = Items::from_slice(alloc, json.as_bytes())?;
    let mut files = Items::new(alloc);
    files.push((path, bytes))?;
    Ok(SureFiles::new(alloc, files))
}

/// The changelog of a JSON file `db/a.json`.
pub fn changelog<P: SqlText>(
    rt: &impl Abort,
    alloc: Global,
    dialect: Dialect,
    sql: &P,
    json: &str,
) -> Changelog
    requires { P.dialect ≡ dialect }
    ensures right { AreFor dialect result }
    ensures short { All HasShortTexts result.sets }
{
    let mut files = files_of(alloc, "db/a.json", json).expect(rt, "memory");
    match load(alloc, &mut files, "db/a.json", dialect, sql, &[]) {
        Ok(changelog) => changelog,
        Err(_) => panic!(rt; "a changelog"),
    }
}

/// A command without filters.
pub fn options(alloc: Global, dialect: Dialect) -> Options
    ensures { result.dialect ≡ dialect }
{
    Options {
        dialect,
        contexts: Items::new(alloc),
        labels: None,
    }
}
