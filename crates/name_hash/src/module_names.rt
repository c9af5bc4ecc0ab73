// The digest of the names of a module.
use affine_ast::{Access, Arg, Bound, Module, Name, Stmt, What};
use sha2::{Digest, Sha256};

/// A digest of names, each told from the next by a byte that no name has.
#[derive(Drop)]
struct Names {
    digest: Sha256,
}

impl Names {
    fn add(&mut self, name: &Name) {
        let mark: [u8; 1] = if name.made { [255] } else { [254] };
        self.digest.update(name.text.as_str().as_bytes());
        self.digest.update(mark.as_slice());
    }

    fn add_all(&mut self, names: &[Name]) {
        for name in names {
            self.add(name);
        }
    }

    fn add_used(&mut self, name: &Name, at: &Access) {
        self.add(name);
        self.add_all(at.operands.as_slice());
    }

    fn add_bound(&mut self, bound: &Bound) {
        match bound {
            Bound::Int(_) => {}
            Bound::Value(name) => self.add(name),
            Bound::Map(at) => self.add_all(at.operands.as_slice()),
        }
    }

    fn add_stride(&mut self, stride: &Option<(Name, Name)>) {
        match stride {
            None => {}
            Some((stride, chunk)) => {
                self.add(stride);
                self.add(chunk);
            }
        }
    }

    fn add_args(&mut self, args: &[Arg]) {
        for arg in args {
            self.add(&arg.name);
        }
    }

    /// The names of a statement and of those in its regions.
    #[cycle(named)]
    fn add_stmt(&mut self, stmt: &Stmt) {
        match &stmt.what {
            What::For {
                var,
                lower,
                upper,
                step: _,
                body,
            } => {
                self.add(var);
                self.add_bound(lower);
                self.add_bound(upper);
                self.add_stmts(body.as_slice());
            }
            What::If {
                set: _,
                operands,
                first,
                other,
            } => {
                self.add_all(operands.as_slice());
                self.add_stmts(first.as_slice());
                match other {
                    None => {}
                    Some(other) => self.add_stmts(other.as_slice()),
                }
            }
            What::Value { result, at, .. } => self.add_used(result, at),
            What::Load {
                result,
                memref,
                at,
                ..
            } => {
                self.add(result);
                self.add_used(memref, at);
            }
            What::Store {
                value,
                memref,
                at,
                ..
            } => {
                self.add(value);
                self.add_used(memref, at);
            }
            What::RawLoad {
                result,
                memref,
                at,
                ..
            } => {
                self.add(result);
                self.add(memref);
                self.add_all(at.as_slice());
            }
            What::RawStore {
                value,
                memref,
                at,
                ..
            } => {
                self.add(value);
                self.add(memref);
                self.add_all(at.as_slice());
            }
            What::Constant { result, .. } => self.add(result),
            What::Binary {
                result,
                left,
                right,
                ..
            } => {
                self.add(result);
                self.add(left);
                self.add(right);
            }
            What::Cast { result, value, .. } => {
                self.add(result);
                self.add(value);
            }
            What::Alloc { result, .. } => self.add(result),
            What::Dealloc { memref, .. } => self.add(memref),
            What::Start {
                from,
                from_at,
                to,
                to_at,
                tag,
                tag_at,
                count,
                stride,
                ..
            } => {
                self.add_used(from, from_at);
                self.add_used(to, to_at);
                self.add_used(tag, tag_at);
                self.add(count);
                self.add_stride(stride);
            }
            What::Wait {
                tag,
                tag_at,
                count,
                ..
            } => {
                self.add_used(tag, tag_at);
                self.add(count);
            }
            What::Return => {}
        }
    }

    #[cycle(named)]
    fn add_stmts(&mut self, stmts: &[Stmt]) {
        for stmt in stmts {
            self.add_stmt(stmt);
        }
    }
}

/// The digest of the names of a module, in the order of their places.
pub(crate) fn digest_of(module: &Module) -> [u8; 32] {
    let mut names = Names {
        digest: Sha256::new(),
    };
    names.add_args(module.args.as_slice());
    names.add_stmts(module.body.as_slice());
    names.digest.finalize()
}
