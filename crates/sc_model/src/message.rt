//! What goes over a connection.
ghost use Rattle.std.specs.Prelude.{◌≡◌};

use sc_entry::{ByteText, CacheMode, GetPathResult, Items, Text};
use sc_stats::{DistInfo, ServerInfo, ServerStats};
use std::alloc::AllocError;

#[derive(Drop)]
pub struct Variable {
    pub name: ByteText,
    pub value: ByteText,
}

#[derive(Drop)]
pub struct Compile {
    pub exe: ByteText,
    pub cwd: ByteText,
    pub args: Items<ByteText>,
    pub env_vars: Items<Variable>,
}

#[derive(Drop)]
pub enum Request {
    ZeroStats,
    GetStats,
    DistStatus,
    Shutdown,
    Compile(Compile),
    StorageHandshake,
    StorageGetPath(Text),
    StorageGetRaw(Text),
    StoragePutRaw(Text, ByteText),
    StorageGetPreprocessorEntry(Text),
    StoragePutPreprocessorEntry(Text, ByteText),
    RecordStats(ServerStats),
}

#[derive(Drop)]
pub enum CompileResponse {
    CompileStarted,
    UnhandledCompile,
    UnsupportedCompiler(ByteText),
}

#[derive(Clone, Copy)]
pub enum ColorMode {
    Off,
    On,
    Auto,
}

#[derive(Drop)]
pub struct CompileFinished {
    pub retcode: Option<i32>,
    pub signal: Option<i32>,
    pub stdout: ByteText,
    pub stderr: ByteText,
    pub color_mode: ColorMode,
}

#[derive(Drop)]
pub struct StorageHandshakeInfo {
    pub location: Text,
    pub cache_type_name: Text,
    pub basedirs: Items<ByteText>,
    pub use_preprocessor_cache_mode: bool,
    pub cache_mode: CacheMode,
    pub max_size: Option<u64>,
}

#[derive(Drop)]
pub enum Response {
    Compile(CompileResponse),
    ZeroStats,
    Stats(ServerInfo),
    DistStatus(DistInfo),
    ShuttingDown(ServerInfo),
    CompileFinished(CompileFinished),
    StorageHandshake(StorageHandshakeInfo),
    StorageGetPath(GetPathResult),
    StorageGetRaw(Option<ByteText>),
    StoragePutRaw(Result<(), Text>),
    StorageGetPreprocessorEntry(Result<Option<ByteText>, Text>),
    StoragePutPreprocessorEntry(Result<(), Text>),
    RecordStats,
    ArtifactNotification(ByteText),
}

impl Clone for Variable {
    ghost is_clone = { λ original copy. copy ≡ original };

    fn clone(&self) -> Result<Variable, AllocError> {
        Ok(Variable {
            name: self.name.clone()?,
            value: self.value.clone()?,
        })
    }
}

impl Clone for Compile {
    ghost is_clone = { λ original copy. copy ≡ original };

    fn clone(&self) -> Result<Compile, AllocError> {
        Ok(Compile {
            exe: self.exe.clone()?,
            cwd: self.cwd.clone()?,
            args: self.args.clone()?,
            env_vars: self.env_vars.clone()?,
        })
    }
}

impl Clone for Request {
    ghost is_clone = { λ original copy. copy ≡ original };

    fn clone(&self) -> Result<Request, AllocError> {
        match self {
            Request::ZeroStats => Ok(Request::ZeroStats),
            Request::GetStats => Ok(Request::GetStats),
            Request::DistStatus => Ok(Request::DistStatus),
            Request::Shutdown => Ok(Request::Shutdown),
            Request::Compile(inner) => Ok(Request::Compile(inner.clone()?)),
            Request::StorageHandshake => Ok(Request::StorageHandshake),
            Request::StorageGetPath(inner) => Ok(Request::StorageGetPath(inner.clone()?)),
            Request::StorageGetRaw(inner) => Ok(Request::StorageGetRaw(inner.clone()?)),
            Request::StoragePutRaw(first, second) => Ok(Request::StoragePutRaw(
                first.clone()?,
                second.clone()?,
            )),
            Request::StorageGetPreprocessorEntry(inner) => Ok(Request::StorageGetPreprocessorEntry(
                inner.clone()?,
            )),
            Request::StoragePutPreprocessorEntry(first, second) => Ok(
                Request::StoragePutPreprocessorEntry(first.clone()?, second.clone()?),
            ),
            Request::RecordStats(inner) => Ok(Request::RecordStats(inner.clone()?)),
        }
    }
}
