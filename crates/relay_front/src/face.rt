//! What the relay says that it is.
ghost use Rattle.std.specs.Prelude.{◌≡◌};
ghost use Rattle.relay_front.specs.Faces.{info_of};

/// What the relay says that it is, to clients that ask before they write.
#[derive(Clone, Copy, Debug, PartialEq, Eq)]
pub enum Face {
    /// What the client libraries of OpenSearch and of Elasticsearch take alike: OpenSearch 2 with
    /// the version number 7.10.2, and the header `x-elastic-product`.
    Compatible,
    /// OpenSearch alone.
    OpenSearch,
}

impl Face {
    /// The face with this name on the command line. `None`: no face has it.
    pub fn named(name: &str) -> Option<Face> {
        match name {
            "compatible" => Some(Face::Compatible),
            "opensearch" => Some(Face::OpenSearch),
            _ => None,
        }
    }

    /// The body of the answer to `GET /`.
    pub fn info(self) -> &'static str
        ensures { result.now ≡ info_of self }
    {
        match self {
            Face::Compatible => COMPATIBLE,
            Face::OpenSearch => OPENSEARCH,
        }
    }
}

const COMPATIBLE: &str =
    "{\"name\":\"relay\",\"cluster_name\":\"relay\",\"cluster_uuid\":\"relay\",\"version\":{\"number\":\"7.10.2\",\"distribution\":\"opensearch\",\"build_flavor\":\"default\",\"build_type\":\"relay\",\"build_hash\":\"relay\",\"build_date\":\"2026-01-01T00:00:00Z\",\"build_snapshot\":false,\"lucene_version\":\"9.7.0\",\"minimum_wire_compatibility_version\":\"7.10.0\",\"minimum_index_compatibility_version\":\"7.0.0\"},\"tagline\":\"You Know, for Search\"}";

const OPENSEARCH: &str =
    "{\"name\":\"relay\",\"cluster_name\":\"relay\",\"cluster_uuid\":\"relay\",\"version\":{\"distribution\":\"opensearch\",\"number\":\"2.11.0\",\"build_type\":\"relay\",\"build_hash\":\"relay\",\"build_date\":\"2026-01-01T00:00:00Z\",\"build_snapshot\":false,\"lucene_version\":\"9.7.0\",\"minimum_wire_compatibility_version\":\"7.10.0\",\"minimum_index_compatibility_version\":\"7.0.0\"},\"tagline\":\"The OpenSearch Project: https://opensearch.org/\"}";
