use lq_sqltree::{SqlTreeFault, read_sql_tree};
use lq_tree::Node;
use std::alloc::{AllocError, Global};
use std::test::Fail;

// Texts in quotes, lists in brackets, maps in braces.
fn show(out: &mut String, node: &Node) -> Result<(), AllocError> {
    match node {
        Node::Text(text) => {
            out.push_str("'")?;
            out.push_str(text.as_str())?;
            out.push_str("' ")?;
        }
        Node::List(items) => {
            out.push_str("[")?;
            for item in items.as_slice() {
                show(out, item)?;
            }
            out.push_str("]")?;
        }
        Node::Map(entries) => {
            out.push_str("{")?;
            for entry in entries.as_slice() {
                out.push_str(entry.0.as_str())?;
                out.push_str(":")?;
                show(out, &entry.1)?;
            }
            out.push_str("}")?;
        }
        _ => out.push_str("?")?,
    }
    Ok(())
}

fn shown(alloc: Global, lines: &str) -> Result<String, AllocError> {
    let mut text = String::from_str(alloc, "--liquibase formatted sql ")?;
    text.push_str(lines)?;
    let mut out = String::new(alloc);
    match read_sql_tree(alloc, text.as_bytes()) {
        Ok(node) => show(&mut out, &node)?,
        Err(SqlTreeFault::NoHeader) => out.push_str("no header")?,
        Err(SqlTreeFault::Line(line)) => write!(out, "line {line}")?,
        Err(SqlTreeFault::OutOfMemory) => out.push_str("out of memory")?,
    }
    Ok(out)
}

#[test]
fn trees_are_read(rt: HostRuntime) -> Result<(), Fail> {
    let cases = [
        ("", "{databaseChangeLog:[]}"),
        ("dbms:mysql", "no header"),
        ("\nSELECT 1", "line 2"),
        (
            "\n\n--changeset bob:1",
            "{databaseChangeLog:[{changeSet:{3:{heading:{id:'1' author:'bob' comment:'' preConditions:[]changes:[{sql:{sql:'' }}]}elsewhere:{id:'1' author:'bob' comment:'' preConditions:[]changes:[]}here:{id:'1' author:'bob' comment:'' preConditions:[]changes:[]}}}}]}",
        ),
        (
            "logicalFilePath:a\n--changeset b:1\n--rollback empty\n--changeset b:2 logicalFilePath:c\n--rollback",
            "{databaseChangeLog:[{changeSet:{2:{heading:{id:'1' author:'b' comment:'' preConditions:[]changes:[{sql:{sql:'' }}]}elsewhere:{id:'1' author:'b' comment:'' preConditions:[]changes:[]logicalFilePath:'a' }here:{id:'1' author:'b' comment:'' preConditions:[]changes:[]logicalFilePath:'a' rollback:[]}}}}{changeSet:{4:{heading:{id:'2' author:'b' comment:'' preConditions:[]changes:[{sql:{sql:'' }}]}elsewhere:{id:'2' author:'b' comment:'' preConditions:[]changes:[]logicalFilePath:'c' }here:{id:'2' author:'b' comment:'' preConditions:[]changes:[]logicalFilePath:'c' rollback:['' ]}}}}]}",
        ),
        (
            "\n--changeset b:1 stripComments:x labels:l endDelimiter:/ ignore:${i} dbms:mysql\nA /\n--comment c\n\nB\n\n--rollback C\n--rollback empty",
            "{databaseChangeLog:[{changeSet:{2:{heading:{id:'1' author:'b' comment:'c' preConditions:[]changes:[{sql:{sql:'' stripComments:'x' endDelimiter:'/' }}]labels:'l' ignore:'${i}' }elsewhere:{id:'1' author:'b' comment:'c' preConditions:[]changes:[]labels:'l' ignore:'${i}' dbms:'mysql' }here:{id:'1' author:'b' comment:'c' preConditions:[]changes:[{sql:{sql:'A /\n\nB' stripComments:'x' endDelimiter:'/' }}]labels:'l' ignore:'${i}' dbms:'mysql' rollback:['C\nempty' ]}}}}]}",
        ),
        (
            "\n--changeset b:1\n--precondition-sql-check expectedResult:\"a b\" Q\n--preconditions onError:x onFail:y\n--precondition-sql-check expectedResult:1\n",
            "{databaseChangeLog:[{changeSet:{2:{heading:{id:'1' author:'b' comment:'' preConditions:[{onFail:'y' }{onError:'x' }]changes:[{sql:{sql:'' }}]}elsewhere:{id:'1' author:'b' comment:'' preConditions:[{onFail:'y' }{onError:'x' }]changes:[]}here:{id:'1' author:'b' comment:'' preConditions:[{onFail:'y' }{onError:'x' }{sqlCheck:{expectedResult:'a b' sql:'Q' }}{sqlCheck:{expectedResult:'1' sql:'' }}]changes:[]}}}}]}",
        ),
    ];
    for (lines, want) in cases {
        let read = shown(rt.alloc(), lines)?;
        assert_eq!(rt; read.as_str(), want);
    }
    Ok(())
}
