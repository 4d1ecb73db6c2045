use super::Maker;
use lq_model::Statement;

#[test]
fn prints_constraints(rt: HostRuntime) {
    let make = Maker::new(&rt, rt.alloc());
    let (table, key) = (make.name("t"), make.key("pk_t", "id"));
    let wanted = "ALTER TABLE \"t\" ADD CONSTRAINT \"pk_t\" PRIMARY KEY (\"id\")";
    make.pg(Statement::AddPrimaryKey { table, key }, wanted);
    let (table, key) = (make.name("t"), make.key("PRIMARY", "id"));
    let wanted = "ALTER TABLE `t` ADD PRIMARY KEY (`id`)";
    make.my(Statement::AddPrimaryKey { table, key }, wanted);
    let (table, unique) = (make.name("t"), make.unique("uq", "a", "b"));
    let wanted = "ALTER TABLE \"t\" ADD CONSTRAINT \"uq\" UNIQUE (\"a\", \"b\")";
    make.pg(Statement::AddUnique { table, unique }, wanted);
    let table = make.name("player");
    let foreign = make.foreign("fk_player_team", "team_id", false);
    let wanted =
        "ALTER TABLE \"player\" ADD CONSTRAINT \"fk_player_team\" FOREIGN KEY (\"team_id\") REFERENCES \"team\" (\"id\")";
    make.pg(Statement::AddForeignKey { table, foreign }, wanted);
    let (table, foreign) = (make.name("t"), make.foreign("fk", "c", true));
    let wanted =
        "ALTER TABLE `t` ADD CONSTRAINT `fk` FOREIGN KEY (`c`) REFERENCES `team` (`id`) ON DELETE CASCADE";
    make.my(Statement::AddForeignKey { table, foreign }, wanted)
}

#[test]
fn prints_constraints_dropped(rt: HostRuntime) {
    let make = Maker::new(&rt, rt.alloc());
    let (table, name) = make.pair("player", "fk_player_team");
    let wanted = "ALTER TABLE \"player\" DROP CONSTRAINT \"fk_player_team\"";
    make.pg(Statement::DropConstraint { table, name }, wanted);
    let table = make.name("t");
    let wanted = "ALTER TABLE `t` DROP PRIMARY KEY";
    make.my(Statement::DropPrimaryKey { table }, wanted);
    let (table, name) = make.pair("t", "uq");
    let wanted = "ALTER TABLE `t` DROP INDEX `uq`";
    make.my(Statement::DropUnique { table, name }, wanted);
    let (table, name) = make.pair("t", "fk");
    let wanted = "ALTER TABLE `t` DROP FOREIGN KEY `fk`";
    make.my(Statement::DropForeignKey { table, name }, wanted)
}
