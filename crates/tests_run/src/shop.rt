use crate::running::FileText;

/// The first of three changesets.
pub const FIRST: FileText = (
    "db/a.json",
    r#"{"databaseChangeLog":[
{"changeSet":{"id":"1","author":"ann","changes":[
 {"createTable":{"tableName":"team","columns":[
  {"column":{"name":"id","type":"int","constraints":{"primaryKey":true}}},
  {"column":{"name":"name","type":"varchar(40)","constraints":{"nullable":false}}}]}},
 {"createTable":{"tableName":"player","columns":[
  {"column":{"name":"id","type":"int","constraints":{"primaryKey":true}}},
  {"column":{"name":"team_id","type":"int"}}]}}]}}]}"#,
);

/// Three changesets: two tables, a foreign key and an index.
pub const SHOP: FileText = (
    "db/a.json",
    r#"{"databaseChangeLog":[
{"changeSet":{"id":"1","author":"ann","changes":[
 {"createTable":{"tableName":"team","columns":[
  {"column":{"name":"id","type":"int","constraints":{"primaryKey":true}}},
  {"column":{"name":"name","type":"varchar(40)","constraints":{"nullable":false}}}]}},
 {"createTable":{"tableName":"player","columns":[
  {"column":{"name":"id","type":"int","constraints":{"primaryKey":true}}},
  {"column":{"name":"team_id","type":"int"}}]}}]}},
{"changeSet":{"id":"2","author":"ann","changes":[
 {"addForeignKeyConstraint":{"constraintName":"fk_player_team",
  "baseTableName":"player","baseColumnNames":"team_id",
  "referencedTableName":"team","referencedColumnNames":"id"}}]}},
{"changeSet":{"id":"3","author":"bob","changes":[
 {"createIndex":{"indexName":"ix_player_team","tableName":"player",
  "columns":[{"column":{"name":"team_id"}}]}}]}}]}"#,
);

pub const UPDATE: &str = "update --url=postgresql:db --changelog-file=db/a.json";

pub const UPDATE_MYSQL: &str = "update --url=mysql:db --changelog-file=db/a.json";

pub const REHEARSE: &str = "update-testing-rollback --url=postgresql:db --changelog-file=db/a.json";

pub const DRILL: &str = "drill --url=postgresql:db --runs=runs";

pub const DRILL_MYSQL: &str = "drill --url=mysql:db --runs=runs";

pub const RELEASE: &str = "release-locks --url=postgresql:db";

pub const STATUS: &str = "status --url=postgresql:db --changelog-file=db/a.json";

pub const BACK_ONE: &str =
    "rollback-count --url=postgresql:db --changelog-file=db/a.json --count=1";

pub const BACK_THREE: &str =
    "rollback-count --url=postgresql:db --changelog-file=db/a.json --count=3";

pub const ALL_RAN: &str =
    "ran db/a.json::1::ann\nran db/a.json::2::ann\nran db/a.json::3::bob\nupdate: 3 ran, 0 ran again, 0 marked, 0 skipped, 0 not fresh\n";
