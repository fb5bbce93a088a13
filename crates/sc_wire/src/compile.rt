//! A compile and its answers, as they travel.
ghost use Rattle.sc_wire.specs.Compiles.{variable, compile, compile_response, color_mode, compile_finished};

use crate::error::DecodeError;
use crate::reader::Reader;
use crate::several::{put2, put3, put4};
use crate::wire::Wire;
use sc_entry::NoMemory;
use sc_model::{ColorMode, Compile, CompileFinished, CompileResponse, Variable};
use std::alloc::Global;

impl Wire for Variable {
    ghost codec = { variable };

    fn take(alloc: Global, reader: &mut Reader) -> Result<Variable, DecodeError> {
        Ok(Variable {
            name: Wire::take(alloc, reader)?,
            value: Wire::take(alloc, reader)?,
        })
    }

    fn put(&self, out: &mut Vec<u8>) -> Result<(), NoMemory> {
        put2(&self.name, &self.value, out)
    }
}

impl Wire for Compile {
    ghost codec = { compile };

    fn take(alloc: Global, reader: &mut Reader) -> Result<Compile, DecodeError> {
        Ok(Compile {
            exe: Wire::take(alloc, reader)?,
            cwd: Wire::take(alloc, reader)?,
            args: Wire::take(alloc, reader)?,
            env_vars: Wire::take(alloc, reader)?,
        })
    }

    fn put(&self, out: &mut Vec<u8>) -> Result<(), NoMemory> {
        put4(&self.exe, &self.cwd, &self.args, &self.env_vars, out)
    }
}

impl Wire for CompileResponse {
    ghost codec = { compile_response };

    fn take(alloc: Global, reader: &mut Reader) -> Result<CompileResponse, DecodeError> {
        match u32::take(alloc, reader)? {
            0 => Ok(CompileResponse::CompileStarted),
            1 => Ok(CompileResponse::UnhandledCompile),
            2 => Ok(CompileResponse::UnsupportedCompiler(Wire::take(alloc, reader)?)),
            _ => Err(DecodeError::BadFrame),
        }
    }

    fn put(&self, out: &mut Vec<u8>) -> Result<(), NoMemory> {
        match self {
            CompileResponse::CompileStarted => 0u32.put(out),
            CompileResponse::UnhandledCompile => 1u32.put(out),
            CompileResponse::UnsupportedCompiler(message) => put2(&2u32, message, out),
        }
    }
}

impl Wire for ColorMode {
    ghost codec = { color_mode };

    fn take(alloc: Global, reader: &mut Reader) -> Result<ColorMode, DecodeError> {
        match u32::take(alloc, reader)? {
            0 => Ok(ColorMode::Off),
            1 => Ok(ColorMode::On),
            2 => Ok(ColorMode::Auto),
            _ => Err(DecodeError::BadFrame),
        }
    }

    fn put(&self, out: &mut Vec<u8>) -> Result<(), NoMemory> {
        match self {
            ColorMode::Off => 0u32.put(out),
            ColorMode::On => 1u32.put(out),
            ColorMode::Auto => 2u32.put(out),
        }
    }
}

impl Wire for CompileFinished {
    ghost codec = { compile_finished };

    fn take(alloc: Global, reader: &mut Reader) -> Result<CompileFinished, DecodeError> {
        Ok(CompileFinished {
            retcode: Wire::take(alloc, reader)?,
            signal: Wire::take(alloc, reader)?,
            stdout: Wire::take(alloc, reader)?,
            stderr: Wire::take(alloc, reader)?,
            color_mode: Wire::take(alloc, reader)?,
        })
    }

    fn put(&self, out: &mut Vec<u8>) -> Result<(), NoMemory> {
        put2(&self.retcode, &self.signal, out)?;
        put3(&self.stdout, &self.stderr, &self.color_mode, out)
    }
}
