// What is replied, in words.
use serve::Printed;
use std::test::Fail;

// What a table with room for one route replies to a line, after another line.
fn replied(rt: &HostRuntime, before: &str, line: &str) -> Result<String, Fail> {
    let heap = rt.alloc();
    let mut row = serve::make(heap, 1).ok_or("no memory")?;
    serve::respond(heap, &mut row, before.as_bytes(), 0);
    match serve::respond(heap, &mut row, line.as_bytes(), 1) {
        Some(reply) => {
            let printed = Printed {
                reply,
                row: row.as_slice(),
            };
            Ok(format!(in heap; "{printed}")?)
        }
        None => Ok(String::from_str(heap, "nothing")?),
    }
}

#[test]
fn refusals_in_their_order(rt: HostRuntime) -> Result<(), Fail> {
    assert_eq!(rt;
        replied(&rt, "", "put 10.0.0.0 33 to 65536")?.as_str(),
        "refused 1 at 33"
    );
    assert_eq!(rt;
        replied(&rt, "", "put 10.0.0.1 31 to 65536")?.as_str(),
        "refused 1 at 31"
    );
    assert_eq!(rt;
        replied(&rt, "", "put 10.0.0.0 32 to 65536")?.as_str(),
        "refused 2 at 65536"
    );
    assert_eq!(rt;
        replied(&rt, "", "put 10.0.0.0 32 to 65535")?.as_str(),
        "ready"
    );
    assert_eq!(rt;
        replied(&rt, "", "put 10.0.0.0")?.as_str(),
        "refused 3 at 1"
    );
    Ok(())
}

#[test]
fn a_full_table(rt: HostRuntime) -> Result<(), Fail> {
    assert_eq!(rt;
        replied(&rt, "put 0.0.0.0 0 to 4", "put 10.0.0.0 8 to 1")?.as_str(),
        "full"
    );
    assert_eq!(rt;
        replied(&rt, "put 0.0.0.0 0 to 4", "put 10.0.0.0 7 to 1")?.as_str(),
        "full"
    );
    assert_eq!(rt;
        replied(&rt, "put 0.0.0.0 0 to 4", "put 0.0.0.0 0 to 5")?.as_str(),
        "ready"
    );
    Ok(())
}

#[test]
fn replies_of_several_lines(rt: HostRuntime) -> Result<(), Fail> {
    assert_eq!(rt;
        replied(&rt, "put 10.1.0.0 16 to 2", "beneath 10.0.0.0 8")?.as_str(),
        "10.1.0.0 16 to 2\n1 beneath"
    );
    assert_eq!(rt;
        replied(&rt, "put 10.1.0.0 16 to 2", "beneath 10.1.0.0 17")?.as_str(),
        "0 beneath"
    );
    assert_eq!(rt;
        replied(&rt, "put 10.1.0.0 16 to 2", "list")?.as_str(),
        "put 10.1.0.0 16 to 2\n# 1 routes"
    );
    assert_eq!(rt; replied(&rt, "", "list")?.as_str(), "# 0 routes");
    Ok(())
}
