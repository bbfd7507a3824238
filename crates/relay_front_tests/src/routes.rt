//! What requests ask for.
use relay_front::{Route, route_of};

const ROWS: &[(&str, &str, Route<'static>)] = &[
    ("GET", "/", Route::Info),
    ("HEAD", "/", Route::Info),
    ("POST", "/", Route::Method { allow: "GET, HEAD" }),
    ("GET", "/_cluster/health", Route::ClusterHealth),
    ("GET", "/_cat/health", Route::CatHealth),
    ("GET", "/_nodes/http", Route::Nodes),
    ("GET", "/_nodes/_all/http", Route::Nodes),
    ("GET", "/_license", Route::License),
    ("GET", "/_relay/health", Route::Health),
    ("HEAD", "/_relay/metrics", Route::Metrics),
    ("POST", "/_relay/stop", Route::Stop),
    ("GET", "/_relay/stop", Route::Method { allow: "POST" }),
    ("HEAD", "/books", Route::IndexExists),
    ("PUT", "/books", Route::Method { allow: "HEAD" }),
    ("POST", "/_bulk", Route::Bulk { index: None }),
    ("PUT", "/_bulk", Route::Bulk { index: None }),
    ("GET", "/_bulk", Route::Method { allow: "POST, PUT" }),
    (
        "POST",
        "/books/_bulk",
        Route::Bulk {
            index: Some("books"),
        },
    ),
    (
        "POST",
        "/books/_doc/_bulk",
        Route::Bulk {
            index: Some("books"),
        },
    ),
    (
        "PUT",
        "/books/_doc/a%2Fb",
        Route::Put {
            index: "books",
            id: "a%2Fb",
        },
    ),
    (
        "POST",
        "/books/_doc/1",
        Route::Put {
            index: "books",
            id: "1",
        },
    ),
    (
        "DELETE",
        "/books/_doc/1",
        Route::Delete {
            index: "books",
            id: "1",
        },
    ),
    ("POST", "/books/_doc", Route::Add { index: "books" }),
    ("POST", "/books/_doc/", Route::Add { index: "books" }),
    ("PUT", "/books/_doc", Route::Method { allow: "POST" }),
    (
        "GET",
        "/books/_doc/1",
        Route::Method {
            allow: "PUT, POST, DELETE",
        },
    ),
    ("GET", "/books/_search", Route::Unknown),
    ("PUT", "/books/_create/1", Route::Unknown),
    ("POST", "/books/_doc/1/_update", Route::Unknown),
    ("GET", "/_search", Route::Unknown),
    ("GET", "", Route::Unknown),
    ("POST", "//_bulk", Route::Unknown),
];

fn is_routed(row: &(&str, &str, Route<'static>)) -> bool {
    route_of(row.0, row.1) == row.2
}

#[test]
fn routes(rt: HostRuntime) {
    for row in ROWS {
        assert!(rt; is_routed(row));
    }
}
