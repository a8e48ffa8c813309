use http_routes::*;
use std::test::Fail;

/// Paths, and the route of each.
const PATHS: [(&str, Option<Route>); 37] = [
    ("/hosts", Some(Route::Hosts)),
    ("/hosts/pc1", Some(Route::Host)),
    ("/hosts/a%2Fb", Some(Route::Host)),
    ("/hosts/pc1/rules", Some(Route::Rules)),
    ("/hosts/pc1/dumps", Some(Route::Dumps)),
    ("/dumps/1-0/entry", Some(Route::Entry)),
    ("/dumps/x/commit", Some(Route::Commit)),
    ("/dumps/1-0", Some(Route::Dump)),
    ("/hosts/backups/backups", Some(Route::Backups)),
    ("/hosts/pc1/backups/0", Some(Route::Backup)),
    ("/hosts/pc1/backups/0/list", Some(Route::BackupList)),
    ("/hosts/pc1/backups/0/entry", Some(Route::BackupEntry)),
    ("/hosts/pc1/backups/0/file", Some(Route::BackupFile)),
    ("/hosts/pc1/backups/0/restores", Some(Route::Restores)),
    ("/hosts/pc1/backups/0/keep", Some(Route::Keep)),
    ("/restores/1-0/next", Some(Route::Next)),
    ("/restores/next", Some(Route::Restore)),
    ("/hosts/pc1/expire", Some(Route::Expire)),
    ("/hosts/pc1/contacts", Some(Route::Contacts)),
    ("/hosts/pc1/due", Some(Route::Due)),
    ("/night/clean", Some(Route::Clean)),
    ("/night/sweep", Some(Route::Sweep)),
    ("/stats", Some(Route::Stats)),
    ("/reopen", Some(Route::Reopen)),
    ("/hosts/", None),
    ("/hosts//dumps", None),
    ("/hosts/pc1/", None),
    ("/hosts/pc1/dumps/", None),
    ("/hosts/pc1/backups/", None),
    ("/hosts/pc1/backups//list", None),
    ("/hosts/pc1/backups/0/lists", None),
    ("/dumps", None),
    ("/restores/1-0/next/x", None),
    ("/night", None),
    ("/Stats", None),
    ("hosts/pc1", None),
    ("", None),
];

#[test]
fn each_path_has_its_route(rt: HostRuntime) -> Result<(), Fail> {
    let router = router(rt.alloc())?;
    for (path, route) in PATHS {
        assert_eq!(rt; route_of(&router, path), route);
    }
    Ok(())
}

#[test]
fn a_route_takes_its_methods(rt: HostRuntime) -> Result<(), Fail> {
    assert_eq!(rt;
        Route::Entry.action(b"PUT"),
        Some(Action::Session(SessionAction::Put))
    );
    assert_eq!(rt;
        Route::Entry.action(b"DELETE"),
        Some(Action::Session(SessionAction::Remove))
    );
    assert_eq!(rt; Route::Entry.action(b"PATCH"), None);
    assert_eq!(rt; Route::Entry.allow(), "PUT, DELETE");
    assert_eq!(rt; Route::BackupFile.action(b"HEAD"), None);
    assert_eq!(rt; Route::BackupFile.allow(), "GET");
    assert_eq!(rt;
        Route::Sweep.action(b"POST"),
        Some(Action::Office(OfficeAction::Sweep))
    );
    assert_eq!(rt; Route::Sweep.allow(), "POST");
    Ok(())
}

#[test]
fn a_target_has_its_parts(rt: HostRuntime) -> Result<(), Fail> {
    let (path, query) = split_target("/hosts/pc1/backups/7/file?path=a?b");
    assert_eq!(rt; query, "path=a?b");
    assert_eq!(rt; (first_part(path), second_part(path)), ("pc1", "7"));
    assert_eq!(rt; split_target("/stats"), ("/stats", ""));
    Ok(())
}
