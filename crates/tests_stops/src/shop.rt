use crate::running::{End, FileText};

/// The first of three changesets.
pub const FIRST: FileText = (
    "db/a.json",
    r#"{"databaseChangeLog":[
{"changeSet":{"id":"1","author":"ann","changes":[
 {"createTable":{"tableName":"team","columns":[
  {"column":{"name":"id","type":"int","constraints":{"primaryKey":true}}},
  {"column":{"name":"name","type":"varchar(40)","constraints":{"nullable":false}}}]}},
 {"createTable":{"tableName":"player","columns":[
  {"column":{"name":"id","type":"int","constraints":{"primaryKey":true}}},
  {"column":{"name":"team_id","type":"int"}}]}}]}}]}"#,
);

/// Three changesets: two tables, a foreign key and an index.
pub const SHOP: FileText = (
    "db/a.json",
    r#"{"databaseChangeLog":[
{"changeSet":{"id":"1","author":"ann","changes":[
 {"createTable":{"tableName":"team","columns":[
  {"column":{"name":"id","type":"int","constraints":{"primaryKey":true}}},
  {"column":{"name":"name","type":"varchar(40)","constraints":{"nullable":false}}}]}},
 {"createTable":{"tableName":"player","columns":[
  {"column":{"name":"id","type":"int","constraints":{"primaryKey":true}}},
  {"column":{"name":"team_id","type":"int"}}]}}]}},
{"changeSet":{"id":"2","author":"ann","changes":[
 {"addForeignKeyConstraint":{"constraintName":"fk_player_team",
  "baseTableName":"player","baseColumnNames":"team_id",
  "referencedTableName":"team","referencedColumnNames":"id"}}]}},
{"changeSet":{"id":"3","author":"bob","changes":[
 {"createIndex":{"indexName":"ix_player_team","tableName":"player",
  "columns":[{"column":{"name":"team_id"}}]}}]}}]}"#,
);

/// A changeset that is printed only where all that the three made is there.
pub const LOOK: FileText = (
    "db/look.json",
    r#"{"databaseChangeLog":[
{"changeSet":{"id":"look","author":"ann","changes":[],"preConditions":[
 {"primaryKeyExists":{"tableName":"team"}},
 {"primaryKeyExists":{"tableName":"player"}},
 {"foreignKeyConstraintExists":{"foreignKeyTableName":"player","foreignKeyName":"fk_player_team"}},
 {"indexExists":{"tableName":"player","indexName":"ix_player_team"}}]}}]}"#,
);

pub const LOOKED: End = (0, "-- Changeset db/look.json::look::ann\n", "");

pub const UPDATE: &str = "update --url=postgresql:db --changelog-file=db/a.json";

pub const UPDATE_MYSQL: &str = "update --url=mysql:db --changelog-file=db/a.json";

pub const STATUS: &str = "status --url=postgresql:db --changelog-file=db/a.json";

pub const RELEASE: &str = "release-locks --url=postgresql:db";

pub const RELEASE_MYSQL: &str = "release-locks --url=mysql:db";

pub const BACK_TO_TAG: &str = "rollback --url=postgresql:db --changelog-file=db/a.json --tag=v1";

pub const BACK_TO_TAG_MYSQL: &str = "rollback --url=mysql:db --changelog-file=db/a.json --tag=v1";

pub const ALL_RAN: End = (
    0,
    "ran db/a.json::1::ann\nran db/a.json::2::ann\nran db/a.json::3::bob\nupdate: 3 ran, 0 ran again, 0 marked, 0 skipped, 0 not fresh\n",
    "",
);

pub const FIRST_RAN: End = (
    0,
    "ran db/a.json::1::ann\nupdate: 1 ran, 0 ran again, 0 marked, 0 skipped, 0 not fresh\n",
    "",
);

pub const TWO_RAN: End = (
    0,
    "ran db/a.json::2::ann\nran db/a.json::3::bob\nupdate: 2 ran, 0 ran again, 0 marked, 0 skipped, 0 not fresh\n",
    "",
);

pub const LAST_RAN: End = (
    0,
    "ran db/a.json::3::bob\nupdate: 1 ran, 0 ran again, 0 marked, 0 skipped, 0 not fresh\n",
    "",
);

pub const NONE_RAN: End = (
    0,
    "update: 0 ran, 0 ran again, 0 marked, 0 skipped, 0 not fresh\n",
    "",
);

pub const LOCKED: End = (
    6,
    "",
    "liquibase: locked by ci since 1970-01-01 00:00:01.000\n",
);

pub const RELEASED_NOTHING: End = (0, "lock free\n", "");

pub const RELEASED: End = (
    0,
    "lock released: held by ci since 1970-01-01 00:00:01.000\n",
    "",
);
